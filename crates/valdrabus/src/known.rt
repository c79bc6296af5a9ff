// The literal of a call's numbers.
ghost use Rattle.std.specs.Prelude.{◌≡◌};
ghost use Rattle.std.specs.Bool.{then_some};
ghost use Rattle.meaning.specs.Codes.{is_known, literal_of};

use admitting::literals::{is_known, literal_of};
use meaning::Literal;

// The literal that the numbers stand for; none where one of them, or the setting, names nothing.
// Rules out: any setting let in; start and end exchanged (must-fail: argument_passed_over, exchanged).
pub(crate) fn known_literal(
    kind: u32,
    synthetic: u32,
    start: u32,
    end: u32,
    setting: u32,
) -> Option<Literal>
    ensures { result ≡ then_some (is_known kind synthetic setting) (literal_of kind synthetic start end) }
{
    is_known(kind, synthetic, setting).then_some(literal_of(kind, synthetic, start, end))
}
