// [01 Numbers and the other kinds; 02 T-07] Reading bit strings from a bare text, as digits and as packed bytes. Each public function answers for every input.
#![tactic(auto)]

mod digits;
mod finding;
mod later;
pub mod packing;
mod pens;
pub mod reading;
