// [01 One segment, U&] A U& text by a mark, a raw NUL kept; with " it is an identifier.
ghost use Rattle.meaning.specs.Helpers.{ident};
ghost use Rattle.meaning.specs.Reads.{Reads};
ghost use Rattle.cutting.specs.Marks.{mark_of};
ghost use Rattle.strings.specs.Answers.{lexeme_of};

use crate::alone::read_body;
use cutting::marks::Mark;
use meaning::{ReadRefusal, ReadText};
use spellings::spelling::{Spelled, unicode_lexeme};

// Reads a U& text with a mark: a part of it, so many bytes at the buffer's start, the place where reading stops, or the length for which there is no room.
// Rules out: the other mark taken; a text that is not spelled so refused behind its start (must-fail: lexeme_of_the_other_mark, unspelt_behind_its_start).
pub fn read_lexeme(text: &[u8], mark: Mark, out: &mut [u8]) -> Result<ReadText, ReadRefusal>
    ensures { Reads (lexeme_of (mark_of mark) text.now) out.old result out.new }
{
    match unicode_lexeme(text, mark) {
        Spelled::Body(body) => read_body(text, body, out),
        _ => Err(ReadRefusal::At { place: 0 }),
    }
}

// Reads an identifier's text.
// Rules out: a string read for an identifier; one identifier read for each (must-fail: ident_of_a_string, one_ident_for_all).
pub fn read_ident(text: &[u8], out: &mut [u8]) -> Result<ReadText, ReadRefusal>
    ensures { Reads (ident text.now) out.old result out.new }
{
    read_lexeme(text, Mark::DoubleQuote, out)
}
