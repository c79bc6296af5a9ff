// [01 Numbers] Numbers from their text: the radix prefix, i64, and the digits of a radix in two halves.
#![tactic(auto)]

mod digits;
pub mod int64;
pub mod prefix;
pub mod radix;
