// [02 T-05] Dates: a day's number and back, and the day in a value of ten bytes. Every public function answers for every input.
#![tactic(auto)]

mod lengths;
pub mod numbers;
pub mod values;
