// [01 Numbers] Decimal text: in base ten the text less `_`, with a radix the number of 128 bits, printed.
#![tactic(auto)]

pub mod decimal;
mod halves;
mod printing;
mod separators;
