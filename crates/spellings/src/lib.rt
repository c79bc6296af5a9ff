// [01 One segment] The spelling of a text: which it is, tried in document 01's order, where its body lies, and the escape character that a UESCAPE clause
// chooses. Every public function answers for every input.
#![tactic(auto)]

pub mod spelling;
