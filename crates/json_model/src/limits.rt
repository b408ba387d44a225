//! The limits that what reads JSON and what writes it share.

/// JSON nests no deeper, so no body has as many transactions round one another.
pub const DEPTH_MAX: u64 = 127;

/// The greatest number of the API, but for a cluster's and a member's.
pub const NUMBER_MAX: u64 = i64::MAX as u64;
