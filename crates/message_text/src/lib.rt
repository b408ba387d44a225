//! The texts of the values of the etcd API: requests, answers and watch items, written as words and read again.
#![tactic(auto)]

mod answers;
mod bodies;
mod body_parts;
mod compares;
mod operations;
mod ranges;
mod records;
mod requests;
mod sorts;
mod text;
mod times;
mod watch_items;
mod writes;

pub use text::{Text, push_list, push_named, read_list};
