//! The test that a path or a name in it is too long for a call.
ghost use Rattle.std.specs.Prelude.{◌≡◌};
ghost use Rattle.nl_tree.specs.Step.{is_too_long};

use nl_field::{MAX_NAME, Text};

const MAX_PATH: usize = 1023;

/// Whether a path has more than 1023 bytes, with a slash before each name, or a name more than 55.
#[tactic(auto, unfolding(crate::specs::Step::is_too_long))]
pub fn is_long(path: &[Text]) -> bool
    ensures { result ≡ is_too_long path.now }
{
    let mut total = 0;
    'names: for name in path {
        let len = name.bytes().len();
        if len > MAX_NAME {
            return true;
        }
        total += 1 + len;
        if total > MAX_PATH {
            return true;
        }
    }
    false
}
