//! What each block of a segment is good for (to be taken, or kept for the cleaner, and how worn it is), and the steps of a segment on
//! the table of its blocks.
#![tactic(auto)]

mod table;

pub use table::{
    choose, end_name, give_back, is_free, mark, next_copy, next_page, seal_filled, seal_full,
    set_aside, shut, take, take_target, tell, wear_out,
};
