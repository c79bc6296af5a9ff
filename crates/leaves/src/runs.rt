// Runs of the bytes that names are made of.
ghost use Rattle.std.specs.Prelude.{◌≡◌, drop};
ghost use Rattle.meaning.specs.Bytes.{span};
ghost use Rattle.leaves.specs.Runs.{in_class};

use crate::names::{is_charset_name_byte, is_dollar_tag_continue};

// What a name is made of: a charset's letters, digits and _, or what a dollar tag may go on with.
// Stays: an enum, since `run_len`, a public function, takes it as a parameter.
#[derive(Clone, Copy)]
pub enum NameClass {
    Charset,
    DollarTag,
}

// Whether a byte belongs to a class.
// Stays: a match of two arms that call; nothing but that shape is alike in `say` and `columns` of lists.
fn is_in_class(byte: u8, class: NameClass) -> bool
    ensures { result ≡ in_class class byte }
{
    match class {
        NameClass::Charset => is_charset_name_byte(byte),
        NameClass::DollarTag => is_dollar_tag_continue(byte),
    }
}

// How many bytes of a class stand at a place.
// Rules out: bytes passed over; bytes counted past the end (must-fail: other_place, past_the_end).
pub fn run_len(text: &[u8], at: usize, class: NameClass) -> usize
    ensures { result ≡ span (in_class class) (drop at text.now) }
{
    if text.len() <= at {
        return 0;
    }
    let rest = &text[at..];
    rest.iter()
        .position(|byte| !is_in_class(*byte, class))
        .unwrap_or(rest.len())
}
