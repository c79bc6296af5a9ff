// [01 One segment] One segment, or a whole text that is read as one, into a buffer: its spelling is found once, and its body is read by units.
ghost use Rattle.std.specs.Prelude.{◌≡◌, ◌+◌, ◌≤◌, eqb, length};
ghost use Rattle.meaning.specs.Bytes.{part};
ghost use Rattle.std.specs.Prelude.{if◌then◌else◌};
ghost use Rattle.meaning.specs.Reads.{Reads};
ghost use Rattle.strings.specs.Answers.{BodyInside, body_of, place_of, placed_of, SpelledInside, spelled_as, SpellsAlone};

use escapes::reading::read_units;
use leaves::texts::string_literal_embeds_nul;
use meaning::{ReadRefusal, ReadText, Settings};
use spellings::spelling::{Body, Spelled, string_spelling};

// What was read of a text's part, from a place up to another, as an answer on the text.
// Rules out: a place counted from the body's end (must-fail: place_from_the_end).
fn placed(
    answer: Result<ReadText, ReadRefusal>,
    from: usize,
    until: usize,
) -> Result<ReadText, ReadRefusal>
    requires { from + place_of answer ≤ until }
    ensures { result ≡ placed_of from until answer }
{
    match answer {
        Ok(ReadText::Borrowed { from: _, until: _ }) => Ok(ReadText::Borrowed { from, until }),
        Err(ReadRefusal::At { place }) => Err(ReadRefusal::At {
            place: from + place,
        }),
        other => other,
    }
}

// The escape character: a part of the text, or the backslash where that is empty.
// Rules out: the backslash active beside a chosen escape character (must-fail: backslash_beside_chosen).
fn escape_in<'a>(text: &'a [u8], backslash: &'a [u8], start: usize, end: usize) -> &'a [u8]
    requires { (start ≤ end) × (end ≤ length text.now) }
    ensures { result.now ≡ (if eqb start end then backslash.now else part start end text.now) }
{
    if start == end {
        return backslash;
    }
    &text[start..end]
}

// Reads a body of a text, by its family and its escape character.
// Stays: this Body is a spelling's; that of `fill` and `close_segment` is another, so that nothing travels through all three.
// Rules out: the body taken for the escape character (must-fail: body_for_escape).
pub(crate) fn read_body(text: &[u8], body: Body, out: &mut [u8]) -> Result<ReadText, ReadRefusal>
    requires { BodyInside (length text.now) body }
    ensures { Reads (body_of text.now body) out.old result out.new }
{
    let family = body.family;
    let from = body.from;
    let until = body.until;
    let escape = escape_in(text, b"\\", body.escape_from, body.escape_until);
    let answer = read_units(&text[from..until], family, escape, out);
    placed(answer, from, until)
}

// How a text that is read as one is spelled; not at all, where it holds a raw NUL. Both callers ask this before they read what it tells, so that it has left the
// stack by then.
// Rules out: a text with a raw NUL read as an empty one; the setting lost (must-fail: nul_read_as_empty, spelled_with_the_setting_on).
pub(crate) fn spell_alone(text: &[u8], settings: Settings) -> Spelled
    ensures { SpellsAlone settings text.now result }
{
    if string_literal_embeds_nul(text) {
        return Spelled::Unspelt;
    }
    string_spelling(text, settings)
}

// Reads a text as it is spelled.
// Rules out: what is not spelled told behind its start; a dollar body shown empty (must-fail: refused_behind_its_start, dollar_shown_empty).
pub(crate) fn read_spelled(
    text: &[u8],
    spelled: Spelled,
    out: &mut [u8],
) -> Result<ReadText, ReadRefusal>
    requires { SpelledInside (length text.now) spelled }
    ensures { Reads (spelled_as text.now spelled) out.old result out.new }
{
    match spelled {
        Spelled::Body(body) => read_body(text, body, out),
        Spelled::Dollar { from, until } => Ok(ReadText::Borrowed { from, until }),
        Spelled::Unspelt => Err(ReadRefusal::At { place: 0 }),
    }
}
