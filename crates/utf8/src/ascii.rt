// Runs of plain ASCII.
ghost use Rattle.std.specs.Prelude.{◌≡◌, length};
ghost use Rattle.leaves.specs.Blocks.{passes};
ghost use Rattle.utf8.specs.Plain.{plain_of};

use leaves::blocks::{ByteTest, is_all};

// Two bytes that are not taken for plain.
#[derive(Clone, Copy)]
struct Plain {
    first: u8,
    second: u8,
}

// A byte passes that is ASCII, not NUL, and neither of the two.
// Rules out: 80 hex taken for a byte of ASCII (must-fail: eighty_hex_taken_for_ascii).
impl ByteTest for Plain {
    ghost takes = { λ plain. plain_of plain.first plain.second };

    fn takes(&self, byte: u8) -> bool {
        (byte.wrapping_sub(1) < 127) & (byte != self.first) & (byte != self.second)
    }
}

// Whether a slice holds ASCII only, no NUL, and neither of two bytes.
// Rules out: the first byte not looked for; the second not looked for (must-fail: first_byte_lost, second_byte_lost).
pub fn is_plain_run(bytes: &[u8], first: u8, second: u8) -> bool
    ensures { result ≡ passes (plain_of first second) (length bytes.now) bytes.now }
{
    is_all(bytes, &Plain { first, second })
}
