// The refusal of a script.
use crate::Why;

/// The first fault of a script. Lines and columns count from 1, and both are 0 for `Size`.
#[derive(Clone, Copy, Debug, PartialEq, Eq)]
pub enum ScriptRefusal {
    Refused { line: u32, column: u32, why: Why },
    Memory,
}
