// UTF-8 (RFC 3629): the step with its states, and the check of a slice.
#![tactic(auto)]

pub mod ascii;
pub mod check;
mod places;
pub mod tail;
