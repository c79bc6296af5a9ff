// [02 T-03] Many string literals read in one call, into one buffer.
#![tactic(auto)]

pub mod block;
mod items;
