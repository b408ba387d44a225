//! Laws of the proxy's own transactions, over the definitions of the store and of the proxy. Each is a public function
//! without a body.
#![tactic(auto)]

mod laws;

pub use laws::{answers_are_true, ownership_keys_name_their_keys, parts_go_round};
