//! Small parts that the server and its machine are made of, tried by their public calls: forms over memory, clocks and random words, a hub
//! that threads step, and rows by key.
#![tactic(auto)]

#[cfg(test)]
mod tests;
