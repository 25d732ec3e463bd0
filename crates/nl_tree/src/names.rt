//! Paths as walks over a tree read them.
ghost use Rattle.std.specs.Prelude.{◌≡◌, ◌<◌, length, slice_get, Some};

use nl_tree_content::Path;

/// A path whose names can be read, from the root on.
pub trait Names {
    ghost use Rattle.std.specs.Prelude.{List, ℕ};

    ghost names: { Self → List (List ℕ) };

    /// The count of names.
    fn count(&self) -> u32
        ensures { result ≡ length (names self.now) };

    /// The bytes of the name at a position from 0.
    fn name_at(&self, at: u32) -> &[u8]
        requires { at < length (names self.now) }
        ensures { slice_get (names self.now) at ≡ Some result.now };
}

impl Names for Path {
    ghost names = { λ p. p };

    fn count(&self) -> u32 {
        self.len()
    }

    fn name_at(&self, at: u32) -> &[u8] {
        self.get(at).bytes()
    }
}
