// [02 T-01] A value as a U& literal.
ghost use Rattle.writer.specs.Manners as manners;

use crate::manners::{Kept, Spelling};
use crate::units::put_character;
use leaves::blocks::one_if;
use scalars::reading::utf8_width;

#[derive(Clone, Copy)]
pub(crate) struct Unicode;

impl Spelling for Unicode {
    ghost manner = { λ _. manners.Unicode };

    // Rules out: 7F as it is (must-fail: another_byte_or_limit).
    fn kept(&self) -> Kept {
        Kept {
            low: 32,
            wide: false,
            other: 92,
        }
    }

    // A character's first byte pays for it, so its later bytes cost nothing.
    // Rules out: 7F by one; a later byte that costs (must-fail: octal_without_zeros).
    fn byte_cost(&self, byte: u8) -> u8 {
        let visible = (32 <= byte) & (byte <= 126);
        let numbered = (byte < 32) | (byte == 127) | (192 <= byte);
        one_if(visible)
            + one_if((byte == 39) | (byte == 92))
            + 5 * one_if(numbered)
            + 3 * one_if(240 <= byte)
    }

    fn opening(&self) -> &[u8] {
        b"U&'"
    }

    fn put_other(&self, value: &[u8], at: usize, out: &mut [u8]) -> usize {
        put_character(value, at, out)
    }

    fn unit_width(&self, byte: u8) -> usize {
        utf8_width(byte)
    }
}
