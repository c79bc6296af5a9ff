// A literal and a setting by their numbers.
ghost use Rattle.std.specs.Prelude.{◌≡◌};
ghost use Rattle.meaning.specs.Codes.{is_known, literal_of, settings_of};

use crate::kinds::kind_of;
use meaning::{Literal, Settings, Span};

// Whether the numbers name a kind, a mark and a setting.
// Stays: the C interface gives kind, mark and setting as numbers, and `is_known` of specs/Codes says which are known.
// Rules out: 15 taken for a kind; a setting of 2 taken for one (must-fail: number_past_the_last, setting_past_the_last).
pub fn is_known(kind: u32, synthetic: u32, setting: u32) -> bool
    ensures { result ≡ is_known kind synthetic setting }
{
    ((1 <= kind) & (kind <= 14)) & ((synthetic <= 1) & (setting <= 1))
}

// The literal that four numbers stand for.
// Stays: the C interface gives the mark as a number.
// Rules out: the mark turned round; start and end exchanged (must-fail: setting_past_the_last, number_past_the_last).
pub fn literal_of(kind: u32, synthetic: u32, start: u32, end: u32) -> Literal
    ensures { result ≡ literal_of kind synthetic start end }
{
    Literal {
        kind: kind_of(kind),
        synthetic: synthetic == 1,
        span: Span { start, end },
    }
}

// The setting that a number stands for.
// Stays: the C interface gives the setting as a number.
// Rules out: on for off; off for on (must-fail: number_past_the_last, setting_past_the_last).
pub fn settings_of(setting: u32) -> Settings
    ensures { result ≡ settings_of setting }
{
    Settings {
        backslash: setting == 1,
    }
}
