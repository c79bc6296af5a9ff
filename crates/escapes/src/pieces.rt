// A unit of a body: how many bytes it takes, and which bytes it stands for.

// What stands at a place of a body. The last number of a variant counts the bytes behind the unit's first.
// Stays: a refusal is a case of a unit, as `stop` is one of a step: in an Option some twenty answers would be wrapped for one `?`, in `take_unit`.
#[derive(Clone, Copy)]
pub enum Piece {
    // a byte that stands for itself
    Keep,
    Byte(u8, usize),
    Two(u8, u8, usize),
    // a character by its number; a number that is none refuses, and so does zero
    Scalar(u32, usize),
    // the U& escape character
    Escape(usize),
    Refused,
}
