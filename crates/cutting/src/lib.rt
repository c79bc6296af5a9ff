// [01 Cutting into segments] Openings, closing marks, the first segment, and a cursor that goes from segment to segment. Each function answers for every
// input; none asks its caller for anything.
#![tactic(auto)]

pub mod cursor;
pub mod marks;
pub mod openings;
pub mod segments;
