// [01 Numbers and the other kinds] Money and temporal texts, each read from a bare text. Every public function answers for every input.
#![tactic(auto)]

pub mod money;
pub mod temporal;
