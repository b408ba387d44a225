//! A store under a namespace is the store of the bare keys, with the namespace before each key; and so is a whole world of proxies.
#![tactic(auto)]

mod laws_of_images;
mod laws_of_stored;

pub use laws_of_images::{
    answers_are_images, calls_name_their_keys, stores_are_images,
    worlds_speak_under_their_namespace,
};
pub use laws_of_stored::{
    answers_come_back, lives_are_stored, stored_stores_answer, stored_stores_tell,
};
