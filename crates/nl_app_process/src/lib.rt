//! What the program takes of its process, its words and the image file that they name, and what it tells by itself.
#![tactic(auto)]

mod arguments;
mod help;
mod image;
mod notice;
mod refusal;

pub use arguments::{Request, request_of};
pub use help::{HELP, VERSION};
pub use image::open;
pub use notice::Notice;
pub use refusal::refusal_name;
