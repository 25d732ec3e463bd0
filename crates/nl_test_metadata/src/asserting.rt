// What a test asserts of its rows.
use nl_field::Memory;
use std::process::Abort;

/// Asserts that no row differs, and that there was memory.
pub fn assert_none_differs(rt: &impl Abort, found: Result<Option<usize>, Memory>) {
    assert_eq!(rt; found, Ok(None));
}
