// How a value is spelled: which bytes stand for themselves, what each byte costs, the opening, and the characters that don't stand for themselves. Each way is
// a type, so that one pass measures and one writes for all three, and no turn of theirs asks which it is.
ghost use Rattle.std.specs.Prelude.{◌≡◌, ℕ, List, length, drop};
ghost use Rattle.writer.specs.Manners.{Manner, kept_by, keeps, opening_by, cost_by, unit_by, unit_width};
ghost use Rattle.writer.specs.Texts.{PutBytes, OtherAt};

// The bytes that stand for themselves: from `low` up to 7E hex, or to the last where it is `wide`; but not the quote mark, nor one other.
#[derive(Clone, Copy)]
pub(crate) struct Kept {
    pub low: u8,
    pub wide: bool,
    pub other: u8,
}

pub(crate) fn is_kept(byte: u8, kept: Kept) -> bool
    ensures { result ≡ keeps kept byte }
{
    (kept.low <= byte) & ((byte <= 126) | kept.wide) & (byte != 39) & (byte != kept.other)
}

// A way to spell a value. The quote mark, and a backslash that doesn't stand for itself, each way doubles.
pub(crate) trait Spelling {
    // between quote marks at a setting, or by a form
    ghost manner: { Self → Manner };

    // The bytes that stand for themselves.
    fn kept(&self) -> Kept
        ensures { result ≡ kept_by (manner self.now) };

    // What a byte of the value adds to the length. Costs are sums of tests: these are compiled to vector tests, and a chain of choices is not.
    fn byte_cost(&self, byte: u8) -> u8
        ensures { result ≡ cost_by (manner self.now) byte };

    // What stands before the value's characters.
    fn opening(&self) -> &[u8]
        ensures { result.now ≡ opening_by (manner self.now) };

    // Puts the spelling of a character that is neither of the two at the buffer's start, and says how long it is.
    fn put_other(&self, value: &[u8], at: usize, out: &mut [u8]) -> usize
        requires { OtherAt (manner self.now) value.now at (length out.old) }
        ensures { PutBytes (unit_by (manner self.now) (drop at value.now)) out.old result out.new };

    // How many bytes of the value the character at a byte has: in U& all of its own, elsewhere each byte is spelled alone.
    fn unit_width(&self, byte: u8) -> usize
        ensures { result ≡ unit_width (manner self.now) byte };
}
