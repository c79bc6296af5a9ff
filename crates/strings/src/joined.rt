// [01 Cutting, String reading] Joined text, by its segments, each of which is read alone; and the reading of a string's text.
ghost use Rattle.std.specs.Prelude.{◌≡◌};
ghost use Rattle.meaning.specs.Cutting.{cut, continues};
ghost use Rattle.meaning.specs.Reading.{alone, joined, as_written, read};
ghost use Rattle.meaning.specs.Reads.{Reads};
ghost use Rattle.strings.specs.Answers.{PutsValue, PutsAll};

use crate::alone::{read_spelled, spell_alone};
use cutting::cursor::{Cursor, Next};
use cutting::segments::first_segment;
use leaves::bytes::byte_at;
use leaves::names::is_mark;
use leaves::puts::{least, put_bytes};
use meaning::{ReadRefusal, ReadText, Settings};
use spaces::gap_at;

// The place where reading stops.
// Stays: an error of its own for each crate, as `Misfit` of bits is: neither builds on the other, and in `meaning` no rule needs one.
#[derive(Clone, Copy)]
pub(crate) struct Stop {
    pub place: usize,
}

impl From<Stop> for ReadRefusal {
    ghost use Rattle.std.specs.Prelude.{◌≡◌};
    ghost use Rattle.meaning.specs.declared.ReadRefusal.TheVariants.{At};

    ghost from_gives = { λ stop refusal. refusal ≡ At stop.place };

    fn from(stop: Stop) -> ReadRefusal {
        ReadRefusal::At { place: stop.place }
    }
}

// Whether a quote mark follows the first segment, past white space.
// Rules out: the white space at the text's start counted (must-fail: gap_at_the_start).
fn is_joined(text: &[u8], settings: Settings) -> bool
    ensures { result ≡ continues settings text.now }
{
    match first_segment(text, settings) {
        Some(segment) => {
            let len = segment.len;
            is_mark(byte_at(text, len + gap_at(text, len)))
        }
        None => false,
    }
}

// Puts the value of one segment at the buffer's start, if there is room, and says how long it is in any case.
// Rules out: a value counted from the segment's start (must-fail: segment_from_its_start).
fn put_segment(text: &[u8], settings: Settings, out: &mut [u8]) -> Result<usize, Stop>
    ensures { PutsValue (alone settings text.now) out.old result out.new }
{
    let spelled = spell_alone(text, settings);
    match read_spelled(text, spelled, out) {
        Ok(ReadText::Borrowed { from, until }) => {
            put_bytes(&text[from..until], out);
            Ok(until - from)
        }
        Ok(ReadText::Written { len }) => Ok(len),
        Err(ReadRefusal::At { place }) => Err(Stop { place }),
        Err(ReadRefusal::NoRoom { needed }) => Ok(needed),
    }
}

// All segments of a text: how long their values are, or where the first that is refused stops, or a remainder begins; and the values one after the other at the
// buffer's start, where there is room for all of them.
// Rules out: segments not counted; a remainder passed over, or told where the values end (must-fail: remainder_passed, segments_not_counted,
// remainder_behind_the_values).
fn put_segments(text: &[u8], settings: Settings, out: &mut [u8]) -> Result<usize, Stop>
    ensures { PutsAll (joined settings (cut settings text.now)) out.old result out.new }
{
    let mut cursor = Cursor::new();
    let mut n: usize = 0;
    // Stays: no index is counted: the cursor says where each turn begins, and n sums how long the values are.
    loop {
        match cursor.next(text, settings) {
            Next::Segment {
                start,
                open: _,
                end,
                next,
            } => {
                let from = least(n, out.len());
                match put_segment(&text[start..end], settings, &mut out[from..]) {
                    Ok(len) => {
                        n += len;
                    }
                    Err(stop) => {
                        return Err(Stop {
                            place: start + stop.place,
                        });
                    }
                }
                cursor = next;
            }
            Next::End => {
                return Ok(n);
            }
            Next::Remainder => {
                return Err(Stop { place: cursor.at });
            }
        }
    }
}

// Reads joined text: measured whole before the first byte is written. All segments are gone over twice, at first with no room and then with just the room that
// their values need. Both are one call, which is compiled into this function: it stands on the stack once.
// Rules out: a made-up length; a shorter buffer written to; a text told as written that was only measured (must-fail: joined_length_made_up, room_not_asked,
// told_before_it_is_written).
fn read_joined(text: &[u8], settings: Settings, out: &mut [u8]) -> Result<ReadText, ReadRefusal>
    ensures { Reads (as_written (joined settings (cut settings text.now))) out.old result out.new }
{
    let mut room: usize = 0;
    loop {
        let len = put_segments(text, settings, &mut out[..room])?;
        if out.len() < len {
            return Err(ReadRefusal::NoRoom { needed: len });
        }
        if room == len {
            return Ok(ReadText::Written { len });
        }
        room = len;
    }
}

// Reads a string's text by units: joined, or as one.
// Rules out: the setting lost, for cutting or for reading as one (must-fail: cut_with_the_setting_off, one_with_the_setting_on).
pub(crate) fn read_by_units(
    text: &[u8],
    settings: Settings,
    out: &mut [u8],
) -> Result<ReadText, ReadRefusal>
    ensures { Reads (read settings text.now) out.old result out.new }
{
    if is_joined(text, settings) {
        return read_joined(text, settings, out);
    }
    read_spelled(text, spell_alone(text, settings), out)
}
