//! Prints answers and reports into a sink. No call takes memory. Each answers `Took` where the sink has taken the whole
//! text, and `Failed` only where the sink's count of faults rose; then the sink has taken a prefix of the text.
#![tactic(auto)]

mod answer;
mod findings;
mod line;
mod path;
mod report;
pub mod rows;
mod status;
mod word;

pub use answer::answer_line;
pub use findings::findings_lines;
pub use path::{dir_line, file_line};
pub use report::{formatted_line, report_lines, soak_lines};
pub use status::{damaged_line, refused_line};
pub use word::{number_line, word_line};
