//! What the program writes of a script's items has a text, and is read from it: values and their parts, what the store answers and tells, what
//! proxies send and reply, bodies, and whole scripts.
#![tactic(auto)]

mod laws_of_bodies;
mod laws_of_growth;
mod laws_of_items;
mod laws_of_posts;
mod laws_of_replied;
mod laws_of_scripts;
mod laws_of_sent;
mod laws_of_stores;
mod laws_of_values;

pub use laws_of_bodies::bodies_have_texts;
pub use laws_of_growth::stores_grow_little;
pub use laws_of_items::{items_have_texts_as_made, lines_were_read};
pub use laws_of_posts::posted_bodies_have_texts;
pub use laws_of_replied::replies_fit;
pub use laws_of_scripts::{
    each_item_has_a_text, read_scripts_speak_in_texts, scripts_have_texts, short_posts_have_texts,
    small_scripts_speak_in_texts, what_is_answered_has_a_text, what_is_closed_has_a_text,
    what_is_spoken_has_a_text,
};
pub use laws_of_sent::requests_fit;
pub use laws_of_stores::{answers_fit, messages_fit, stores_stay_fit};
pub use laws_of_values::values_have_texts;
