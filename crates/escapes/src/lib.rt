// [01 One segment] The escape families: what stands at a place of a body, and what a body means. A trait says what a family is, and one pass, by
// units, is generic over it; an enum names the family where it is chosen.
#![tactic(auto)]

pub mod digits;
pub mod escape;
mod families;
mod passing;
pub mod pieces;
pub mod reading;
pub mod standard;
pub mod unicode;
pub mod units;
