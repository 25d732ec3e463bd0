//! The operation that a stop cut short, as a medium in memory keeps it.
use crate::record::Attempt;
use crate::stop::Cut;

/// The operation that a stop cut short.
#[derive(Drop)]
pub struct Interrupted {
    pub attempt: Attempt,
    pub cut: Cut,
}
