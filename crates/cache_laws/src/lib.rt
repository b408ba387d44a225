//! Why what a proxy answers from its cache is what the store has: what each of its own transactions changes and is answered, the view of true
//! caches over all proxies and the store, and that the store's steps are moves of that view. Keys are bare.
#![tactic(auto)]

mod laws_of_guards;
mod laws_of_moves;
mod laws_of_store;

pub use laws_of_guards::{
    calls_are_answered, calls_are_guarded, ownership_keys_are_alone,
    puts_of_ownership_keys_are_alone,
};
pub use laws_of_moves::{
    held_keys_are_true, proxies_keep_the_view, sessions_keep_the_view, the_store_keeps_the_view,
};
pub use laws_of_store::{
    answers_tell_the_view, cached_answers_are_true, calls_keep_the_view_of_the_store,
    leases_keep_the_view_of_the_store,
};
