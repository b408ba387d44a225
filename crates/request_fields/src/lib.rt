//! What the fields of a request's JSON object say, and what of it isn't served: the part of reading a request that is
//! about fields, below paths and bytes.
#![tactic(auto)]

mod compares;
mod extras;
mod known;
mod requests;
mod transactions;
mod watches;

pub use extras::{extra_in, extra_name};
pub use requests::{
    compact_in, delete_in, grant_in, lease_in, leases_in, put_in, range_in, time_to_live_in,
};
pub use transactions::txn_in;
pub use watches::watch_in;
