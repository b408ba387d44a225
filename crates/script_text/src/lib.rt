//! The texts of scripts and transcripts: each line and each item has exactly one.
#![tactic(auto)]

mod fault;
mod item;
mod line;
mod read_items;
mod read_lines;
mod texts;
mod write_items;

pub use fault::LineFault;
pub use item::Item;
pub use line::Line;
pub use texts::{
    append_item, each_item_has_one_text, each_line_has_one_text, places_are_of_first_wrong_words,
    read_item, read_line, write_item,
};
