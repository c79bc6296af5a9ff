// The quick reading: a text is cut and read in one walk, segment by segment, each up to the mark that stands alone. It answers, or it does not: every refusal, UESCAPE
// clauses, dollar strings and what else it cannot read are left to the reading by units.
ghost use Rattle.std.specs.Prelude.{◌≡◌, true, false, ◌+◌, ◌≤◌, ◌<◌, length};
ghost use Rattle.meaning.specs.Bytes.{ascii, has, is_mark};
ghost use Rattle.meaning.specs.Chars.{utf8};
ghost use Rattle.meaning.specs.Reading.{read};
ghost use Rattle.cutting.specs.Marks.{mark_of};
ghost use Rattle.strings.specs.declared.chunks.End.TheVariants.{Closed};
ghost use Rattle.strings.specs.Driving.{family_by, is_bits, Opens, Closes, ReadsSegment, Drives, Rewrites, Tries};

use crate::chunks::End;
use crate::storing::{Body, Store, put_behind, read_body};
use cutting::marks::Mark;
use cutting::openings::opening_len;
use escapes::units::Family;
use leaves::bytes::byte_at;
use leaves::names::is_mark;
use leaves::puts::put_bytes;
use meaning::{ReadText, Settings};
use spaces::gap_at;

// Why a text is not read without the reading by units: there is no room, it is left to that, or it is not UTF-8.
// Stays: no `ReadRefusal` in it, and it in no Option: one enum inside another is moved byte by byte, which cost 11 instructions of a row's 560 to 800.
#[derive(Clone, Copy)]
pub(crate) enum Untold {
    NoRoom { needed: usize },
    Unread,
    NotUtf8,
}

// A segment's opening: the place behind it, and how its body is read.
#[derive(Clone, Copy)]
pub(crate) struct Opened {
    pub known: bool,
    pub from: usize,
    pub family: Family,
}

// A segment that was read: where its body begins, the place behind its closing mark, the place of what follows, whether its body stands for itself, and what is stored.
#[derive(Clone, Copy)]
pub(crate) struct Segment {
    pub read: bool,
    pub from: usize,
    pub end: usize,
    pub next: usize,
    pub plain: bool,
    pub total: usize,
    pub n: usize,
}

// The mark that a byte is.
fn mark_from(byte: u8) -> Mark
    ensures { is_mark byte ≡ true → mark_of result ≡ byte }
{
    if byte == 39 {
        Mark::Quote
    } else {
        Mark::DoubleQuote
    }
}

// B or X, in either case: bits, which no string is.
// Stays: no method of u8 tests these four letters; its definition names them so, and | makes no branch of them.
fn is_bits(byte: u8) -> bool
    ensures { result ≡ is_bits byte }
{
    (byte == 66) | (byte == 98) | (byte == 88) | (byte == 120)
}

// E or N, in either case: a string's, where a quote mark stands behind it.
// Stays: no method of u8 tests these four letters; the clause names them so, and | makes no branch of them.
fn is_string_letter(byte: u8) -> bool
    ensures { result ≡ has byte (ascii "EeNn") }
{
    (byte == 69) | (byte == 101) | (byte == 78) | (byte == 110)
}

// How a segment's body is read, by its first byte and its mark.
fn family_of(first: u8, mark: Mark, settings: Settings) -> Family
    ensures { result ≡ family_by settings first mark }
{
    if (first == 69) | (first == 101) {
        return Family::Escape;
    }
    if (first == 85) | (first == 117) {
        return Family::Unicode { mark: Mark::Quote };
    }
    let backslash = settings.backslash;
    Family::Standard { mark, backslash }
}

// What opens a segment at a place, if it is one of a string. Most are opened by a quote mark alone, or by E or N and one, and spare `opening_len`, whose jump
// table over the first byte is often guessed wrong. So that none is made here, the byte behind the first is asked before it, and by &.
// Rules out: a segment of a lone mark read with the setting on; a body that begins with the mark behind a letter (must-fail: quote_with_the_setting_on,
// letter_before_its_mark).
fn open_segment(text: &[u8], at: usize, settings: Settings) -> Opened
    requires { at ≤ length text.now }
    ensures { Opens settings text.now at result }
{
    let first = byte_at(text, at);
    if first == 39 {
        return Opened {
            known: true,
            from: at + 1,
            family: Family::Standard {
                mark: Mark::Quote,
                backslash: settings.backslash,
            },
        };
    }
    if (byte_at(text, at + 1) == 39) & is_string_letter(first) {
        return Opened {
            known: true,
            from: at + 2,
            family: family_of(first, Mark::Quote, settings),
        };
    }
    let len = opening_len(&text[at..]);
    if (len == 0) | is_bits(first) {
        return Opened {
            known: false,
            from: at,
            family: Family::Escape,
        };
    }
    let from = at + len;
    let mark = mark_from(byte_at(text, from - 1));
    Opened {
        known: true,
        from,
        family: family_of(first, mark, settings),
    }
}

// The segment whose body was read from a place on, if its mark was found, and the white space behind it.
fn close_segment(text: &[u8], from: usize, body: Body) -> Segment
    requires { (from ≤ length text.now) × (from + body.at ≤ length text.now) × (body.end ≡ Closed → from + body.at < length text.now) }
    ensures { Closes text.now from body result }
{
    let end = body.end;
    if let End::Closed = end {
        let behind = from + body.at + 1;
        return Segment {
            read: true,
            from,
            end: behind,
            next: behind + gap_at(text, behind),
            plain: body.plain,
            total: body.total,
            n: body.n,
        };
    }
    Segment {
        read: false,
        from,
        end: from,
        next: from,
        plain: false,
        total: 0,
        n: 0,
    }
}

// Reads the segment at a place, and passes the white space behind it.
fn read_segment(
    text: &[u8],
    at: usize,
    settings: Settings,
    store: Store,
    chunk: &mut [u8],
    out: &mut [u8],
) -> Segment
    requires { (has 0 text.now ≡ false) × (utf8 text.now ≡ true) × (at ≤ length text.now) × (length chunk.old ≡ 240) × (store.n ≤ 240) × (store.total + store.n ≤ at) }
    ensures { ReadsSegment settings text.now at store chunk.old out.old result chunk.new out.new }
{
    let opened = open_segment(text, at, settings);
    let from = opened.from;
    if !opened.known {
        return Segment {
            read: false,
            from,
            end: from,
            next: from,
            plain: false,
            total: 0,
            n: 0,
        };
    }
    let family = opened.family;
    let body = read_body(&text[from..], family, store, chunk, out);
    close_segment(text, from, body)
}

// Reads a text: one segment that is all of it, or several of which the second begins with a mark, told as their last, which then does not stand for itself. All
// segments are read by one call, so that it is compiled into the loop once.
// Rules out: white space behind a lone segment passed over; several segments of which the second begins with a letter (must-fail: white_space_behind_one, second_by_a_letter).
fn drive(text: &[u8], settings: Settings, chunk: &mut [u8], out: &mut [u8]) -> Segment
    requires { (has 0 text.now ≡ false) × (utf8 text.now ≡ true) × (length chunk.old ≡ 240) }
    ensures { Drives settings text.now out.old result chunk.new out.new }
{
    let mut at: usize = 0;
    let mut store = Store { total: 0, n: 0 };
    loop {
        let mut segment = read_segment(text, at, settings, store, chunk, out);
        if !segment.read | ((at == 0) & (segment.end == text.len())) {
            return segment;
        }
        if (at == 0) & !is_mark(byte_at(text, segment.next)) {
            segment.read = false;
            return segment;
        }
        if text.len() <= segment.next {
            segment.plain = false;
            return segment;
        }
        at = segment.next;
        store = Store {
            total: segment.total,
            n: segment.n,
        };
    }
}

// Writes by a second walk what a first has counted.
fn write_again(text: &[u8], settings: Settings, chunk: &mut [u8], out: &mut [u8]) -> bool
    requires { (has 0 text.now ≡ false) × (utf8 text.now ≡ true) × (length chunk.old ≡ 240) }
    ensures { Rewrites settings text.now out.old result out.new }
{
    let driven = drive(text, settings, chunk, out);
    let n = driven.n;
    if driven.read {
        put_behind(&chunk[..n], driven.total, out);
    }
    driven.read
}

// Reads a text that is UTF-8 and holds no NUL, if it can be read so; else there is no answer. The buffer is touched once all is known: a first walk only counts what fills the chunk up. What
// never filled it is copied out of it, anything else is walked again and written. That the second walk reads what the first has read need not be shown: if it did not, the reading by units would write the same.
pub(crate) fn read_quick(
    text: &[u8],
    settings: Settings,
    out: &mut [u8],
) -> Result<ReadText, Untold>
    requires { (has 0 text.now ≡ false) × (utf8 text.now ≡ true) }
    ensures { Tries true (read settings text.now) out.old result out.new }
{
    let mut chunk = [0u8; 240];
    let mut nowhere = [0u8; 1];
    let driven = drive(text, settings, &mut chunk, &mut nowhere);
    if !driven.read {
        return Err(Untold::Unread);
    }
    if driven.plain {
        let until = text.len() - 1;
        return Ok(ReadText::Borrowed {
            from: driven.from,
            until,
        });
    }
    let needed = driven.total + driven.n;
    if out.len() < needed {
        return Err(Untold::NoRoom { needed });
    }
    if driven.total == 0 {
        put_bytes(&chunk[..needed], out);
        return Ok(ReadText::Written { len: needed });
    }
    if write_again(text, settings, &mut chunk, &mut out[..needed]) {
        return Ok(ReadText::Written { len: needed });
    }
    Err(Untold::Unread)
}
