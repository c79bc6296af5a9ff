// [01 The writer] A value between quote marks, at a setting on the backslash.
ghost use Rattle.writer.specs.Manners as manners;

use crate::manners::{Kept, Spelling};
use crate::units::put_two;
use leaves::blocks::one_if;

// Whether a backslash escapes.
#[derive(Clone, Copy)]
pub(crate) struct Plain {
    pub backslash: bool,
}

impl Spelling for Plain {
    ghost manner = { λ s. manners.Plain s.backslash };

    // Rules out: a backslash doubled with the setting off (must-fail: backslash_always_doubled).
    fn kept(&self) -> Kept {
        if self.backslash {
            return Kept {
                low: 1,
                wide: true,
                other: 92,
            };
        }
        Kept {
            low: 0,
            wide: true,
            other: 39,
        }
    }

    // Rules out: a backslash paid for twice with the setting off (must-fail: octal_without_zeros).
    fn byte_cost(&self, byte: u8) -> u8 {
        1 + one_if((byte == 39) | (self.backslash & ((byte == 92) | (byte == 0))))
    }

    fn opening(&self) -> &[u8] {
        b"'"
    }

    // A NUL: nothing else is left.
    fn put_other(&self, _value: &[u8], _at: usize, out: &mut [u8]) -> usize {
        put_two(92, 48, out)
    }

    fn unit_width(&self, _byte: u8) -> usize {
        1
    }
}
