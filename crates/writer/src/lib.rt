// [01 The writer; 02 T-01, T-02, T-07] Values as literals: plain ones, whole or in parts, and E and U& ones. A value is tested, then measured, then written. How
// one character is spelled is all that the three ways differ by: a trait says it, and the passes are generic over it. And packed bits as B and X literals.
#![tactic(auto)]

pub mod bits;
pub mod escape;
pub mod figures;
pub mod forms;
pub mod lengths;
pub mod literal;
pub mod manners;
pub mod parts;
pub mod plain;
pub mod scans;
pub mod texts;
pub mod unicode;
pub mod units;
