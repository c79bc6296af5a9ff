// [02 T-07] Packed bits in numbers.
ghost use Rattle.std.specs.Prelude.{◌≡◌};
ghost use Rattle.valdrabus.specs.Calls.{no_bits, packed_told};

use crate::told::{Told, refusal_told, written_told};
use meaning::{PackedBits, Refusal};

// What is told, and how many bits the packed bytes hold: none on a refusal.
// Stays: the numbers that an export hands to C (`no_bits` of specs/Calls names them).
#[derive(Clone, Copy)]
pub(crate) struct PackedTold {
    pub told: Told,
    pub bits: u64,
}

pub(crate) fn no_bits(told: Told) -> PackedTold
    ensures { result ≡ no_bits told }
{
    PackedTold { told, bits: 0 }
}

// Rules out: the length told for the count (must-fail: numbers_mistaken).
pub(crate) fn packed_told(answer: Result<PackedBits, Refusal>) -> PackedTold
    ensures { result ≡ packed_told answer }
{
    match answer {
        Ok(PackedBits { len, bits }) => PackedTold {
            told: written_told(len),
            bits,
        },
        Err(refusal) => no_bits(refusal_told(refusal)),
    }
}
