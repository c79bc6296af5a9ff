// [01 Numbers an answer can carry; clarification C31] What every question asks first: the kind by its code, a literal and a setting by
// their numbers, and the tests 1 to 4 in their order.
#![tactic(auto)]

pub mod kinds;
pub mod literals;
pub mod tests;
