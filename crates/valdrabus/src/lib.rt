// The C exports: every question on numbers and slices. include/valdrabus.h says what each number stands for.
// A number that names nothing (an unknown kind, a mark or a setting that is neither 0 nor 1) is refused with 10 before all else; in a block that is an item's
// number, and the call's own, 15, comes first.
#![tactic(auto)]

pub mod bare;
pub mod bit_strings;
pub mod block;
mod counted;
mod dated;
pub mod dates;
mod known;
mod packed;
pub mod parts;
pub mod texts;
mod told;
pub mod values;
pub mod version;
pub mod views;
pub mod writing;
