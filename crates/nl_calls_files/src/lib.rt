//! One file of a volume takes and gives up pages: what that needs, and what it makes of the tree, of the pages that are held and of those
//! that are free. Needs no core.
#![tactic(auto)]

mod cutting;
pub mod laws;
mod taking;

pub use cutting::cut_back;
pub use taking::take_page;
