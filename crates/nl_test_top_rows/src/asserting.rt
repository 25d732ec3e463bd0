// What a test asserts of what it was told.
use nl_field::Memory;
use std::process::Abort;

/// Asserts that nothing is told otherwise than wanted, and that there was memory.
pub fn assert_none_wrong(rt: &impl Abort, wrong: Result<String, Memory>) {
    match wrong {
        Ok(text) => assert_eq!(rt; text.as_str(), ""),
        Err(_) => assert!(rt; false),
    }
}
