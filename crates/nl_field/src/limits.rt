//! The limits of a volume that no geometry changes.

/// The most bytes of a file: 8 pages by direct pointers and 16 ranges of 256 pages.
pub const MAX_FILE_SIZE: u64 = 16_809_984;

/// The most bytes of one read, write or fill.
pub const MAX_BYTES: usize = 65_536;

/// The most entries of a directory: 16 pages of 64.
pub const MAX_ENTRIES: u32 = 1024;

/// The most bytes of a name.
pub const MAX_NAME: usize = 55;
