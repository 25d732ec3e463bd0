//! The steps of file calls on the core of a volume.
#![tactic(auto)]

mod answer;
mod ending;
mod finding;
mod installing;
pub mod laws;
mod lines;
mod paging;
mod reading;
mod room;
mod truncating;

pub use answer::{Found, Written};
pub use ending::end_line;
pub use finding::find_file;
pub use installing::install_page;
pub use lines::install_line;
pub use paging::read_page;
pub use reading::{count_file, list_names, look_up, open_node, prepare_file, read_file};
pub use room::make_room;
pub use truncating::cut_file;
