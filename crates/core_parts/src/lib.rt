//! What a proxy has beside its requests and its writes: its session with the session's call, its leasing stream, and the cached
//! header. Each call is a small step of the machine's definition on one of them, and takes no memory but where it says so.
#![tactic(auto)]

mod headers;
mod messages;
mod opening;
mod seat;
mod session_calls;

pub use headers::{item_header, raise_header};
pub use messages::{is_readable, told_revision};
pub use opening::{
    Opening, advance_opening, create_opening, cut_opening, opening_at, opening_of, renew_opening,
    send_opening, stands_created, watch_of,
};
pub use seat::{
    Seat, free_seat, grant_seat, live_number, renew_seat, seat_calls, seat_is_over, tick_seat,
};
pub use session_calls::{send_session, session_out, session_request};
