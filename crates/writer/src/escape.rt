// [02 T-01] A value as an E literal.
ghost use Rattle.writer.specs.Manners as manners;

use crate::manners::{Kept, Spelling};
use crate::units::{escape_letter, put_octal, put_two};
use leaves::blocks::one_if;

#[derive(Clone, Copy)]
pub(crate) struct Escape;

impl Spelling for Escape {
    ghost manner = { λ _. manners.Escape };

    fn kept(&self) -> Kept {
        Kept {
            low: 32,
            wide: true,
            other: 92,
        }
    }

    // Rules out: 0B by two bytes; 7F by four (must-fail: another_byte_or_limit).
    fn byte_cost(&self, byte: u8) -> u8 {
        let letter = (8 <= byte) & (byte <= 13) & (byte != 11);
        1 + one_if((byte == 39) | (byte == 92) | letter) + 3 * one_if((byte < 32) & !letter)
    }

    // Rules out: e' for E' (must-fail: no_plus_sign).
    fn opening(&self) -> &[u8] {
        b"E'"
    }

    fn put_other(&self, value: &[u8], at: usize, out: &mut [u8]) -> usize {
        let byte = value[at];
        match escape_letter(byte) {
            Some(letter) => put_two(92, letter, out),
            None => put_octal(byte, out),
        }
    }

    fn unit_width(&self, _byte: u8) -> usize {
        1
    }
}
