//! What a proxy does, as definitions: its state is a record of parts, and each part's rules stand in a file of
//! `specs/` of their own. The crates that keep a part cite them in their contracts, and nothing here does work.
//!
//! The types that the definitions speak of are declared here, and given on by the crates that work with them.
#![tactic(auto)]

mod lease;
mod ownership;
mod session;
mod unserved;
mod worked;

pub use lease::{Entry, Phase};
pub use ownership::{Claim, Owned, Owner, Written};
pub use session::{FIRST_SESSION, Standing, first_session_is_stated};
pub use unserved::Unserved;
pub use worked::worked_transactions;
