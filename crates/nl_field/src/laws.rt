//! Laws of the spellings. Each function stands for the law that its contract names.
ghost use Rattle.nl_field.specs.ScanList.{ListsAreOfImages};
ghost use Rattle.nl_field.specs.Virtual.{MapIsImage};
ghost use Rattle.std.specs.Prelude.{◌≡◌, ◌≤◌, length, take};
ghost use Rattle.byteorder.specs.Endian.{little_bytes, little_number};

/// A number that was read from bytes, lowest first, and is written again gives the bytes that it was read from, at any
/// width.
pub fn written_back(bytes: &[u8], width: usize)
    requires { width ≤ length bytes.now }
    ensures { little_bytes width (little_number width bytes.now) ≡ take width bytes.now }
{}

/// The list that a scan of an image gives tells its spare blocks, which pointers are lost, which own their names, and the place of
/// each.
pub fn lists_tell()
    ensures { ListsAreOfImages }
{}

/// The bytes of a device's addresses are those of an image with its values.
pub fn map_is_image()
    ensures { MapIsImage }
{}
