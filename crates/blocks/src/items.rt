// One item of a block: asked as the single question, and told in four numbers. Nothing here makes a literal or a refusal, which the single question needs to
// tell its kind and its span: a plain row costs its scan and little more.
ghost use Rattle.std.specs.Prelude.{◌≡◌, ◌+◌, ◌≤◌, length};
ghost use Rattle.meaning.specs.Blocks.{item_asked};
ghost use Rattle.blocks.specs.Items.{told_of, read_told, item_at, laid, InBlock, Asks};

use admitting::literals::{is_known, settings_of};
use admitting::tests::is_bad_span;
use meaning::{Four, Item, ReadRefusal, ReadText, Span};
use strings::plain::is_plain_ascii;
use strings::reading::read_string;

// What is told of an item, and how many bytes of the room it takes.
#[derive(Clone, Copy)]
pub(crate) struct Told {
    pub four: Four,
    pub took: usize,
}

fn tell(number: u32, how: u32, start: usize, len: usize, took: usize) -> Told
    requires { (start ≤ 4294967295) × (len ≤ 4294967295) }
    ensures { result ≡ told_of number how start len took }
{
    Told {
        four: Four {
            number,
            how,
            start: start as u32,
            len: len as u32,
        },
        took,
    }
}

// A number alone, and no room taken.
fn refused(number: u32) -> Told
    ensures { result ≡ told_of number 0 0 0 0 }
{
    tell(number, 0, 0, 0, 0)
}

// A reading of the text at a place of the source, into the buffer behind `used` bytes.
// Rules out: room taken without a text in it, or none by a text; a text told by its end, by its length, or as one of the other slice; a place left out, or
// told as the text's start or as a length (must-fail: room_taken_by_a_refusal, room_taken_by_a_borrowed_text, nothing_taken, end_for_start,
// start_by_the_length, start_in_its_room, written_told_as_borrowed, lack_told_as_refused, place_left_out, start_for_place, place_for_length).
fn read_told(read: Result<ReadText, ReadRefusal>, start: usize, used: usize) -> Told
    requires { InBlock start used read }
    ensures { result ≡ read_told start used read }
{
    match read {
        Ok(ReadText::Borrowed { from, until }) => tell(0, 1, start + from, until - from, 0),
        Ok(ReadText::Written { len }) => tell(0, 2, used, len, len),
        Err(ReadRefusal::At { place }) => tell(6, 0, place, 0, 0),
        Err(ReadRefusal::NoRoom { needed }) => tell(9, 0, 0, needed, 0),
    }
}

// Reads an item into the room that is left of the buffer, behind `used` bytes of it.
// Stays: the C interface gives an item's kind as a number, and `item_asked` of specs/Blocks speaks of that.
// Rules out: kind and setting exchanged; one number for another; another kind read; one setting for all (must-fail: kind_and_setting_exchanged,
// unknown_told_as_wrong_kind, wrong_kind_told_as_unknown, bad_span_told_as_not_utf8, dates_read, setting_off_for_all).
pub(crate) fn read_item(item: Item, source: &[u8], used: usize, room: &mut [u8]) -> Told
    requires { used + length room.old ≤ 4294967295 }
    ensures { Asks (item_asked source.now used room.old item) result room.new }
{
    let kind = item.kind;
    if !is_known(kind, 0, item.setting) {
        return refused(10);
    }
    if kind != 4 {
        return refused(1);
    }
    let span = Span {
        start: item.start,
        end: item.end,
    };
    if is_bad_span(span, source) {
        return refused(3);
    }
    let start = item.start as usize;
    let end = item.end as usize;
    let text = &source[start..end];
    let settings = settings_of(item.setting);
    if is_plain_ascii(text, settings) {
        let until = text.len() - 1;
        return read_told(Ok(ReadText::Borrowed { from: 1, until }), start, used);
    }
    match read_string(text, settings, room) {
        Ok(read) => read_told(read, start, used),
        Err(_) => refused(4),
    }
}

// The item at the front of a run of numbers.
// Rules out: the end taken for the start too (must-fail: short_last_item).
pub(crate) fn item_at(numbers: &[u32]) -> Item
    requires { 4 ≤ length numbers.now }
    ensures { result ≡ item_at numbers.now }
{
    Item {
        kind: numbers[0],
        setting: numbers[1],
        start: numbers[2],
        end: numbers[3],
    }
}

// Lays four numbers down at the front of a slice.
// Rules out: a field left as it was; one for another (must-fail: room_taken_by_a_refusal, short_last_item).
pub(crate) fn lay(four: Four, answers: &mut [u32])
    requires { 4 ≤ length answers.old }
    ensures { answers.new ≡ laid four answers.old }
{
    answers[0] = four.number;
    answers[1] = four.how;
    answers[2] = four.start;
    answers[3] = four.len;
}
