// The questions as a user asks them: a literal, a source, a setting and a lent buffer go in, an answer of document 01 comes out.
// Every one answers for every input.
#![tactic(auto)]

pub mod dates;
pub mod packing;
pub mod parts;
pub mod refusals;
pub mod shown;
pub mod texts;
pub mod values;
