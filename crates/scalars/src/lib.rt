// Characters by their numbers: read at a place, encoded into a buffer.
#![tactic(auto)]

pub mod encoding;
pub mod reading;
