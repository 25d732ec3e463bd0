//! What a run keeps of its lines, and the sentences of the headline of their course: each from what the workers, the volume and its closing
//! say.
#![tactic(auto)]

mod charges;
mod listing;
mod tables;

pub use charges::Charges;
pub use listing::list_answers;
pub use tables::{Tables, tables_for};
