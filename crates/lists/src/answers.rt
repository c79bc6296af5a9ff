// A row's answer: its key, or why it has none.
use crate::said::{Stream, say};
use crate::shown::say_key;
use crate::stops::{say_broken, say_stop};
use meaning::{Literal, LiteralKind, Refusal, Span, Text};
use questions::refusals::refusal_number;
use questions::shown::text_shown;
use std::fmt;
use std::fmt::Write;

pub(crate) fn whole(line: &[u8]) -> Literal {
    Literal {
        kind: LiteralKind::String,
        synthetic: false,
        span: Span {
            start: 0,
            end: (line.len() % 4294967296) as u32,
        },
    }
}

// Why a row that is not UTF-8 has no key, in the words of the host crate; and its bytes.
fn say_refusal(refusal: Refusal, line: &[u8]) -> fmt::Result {
    let mut output = Stream::Output;
    let len = line.len();
    let number = refusal_number(refusal);
    if let Refusal::InvalidSourceRange(_) = refusal {
        writeln!(
            output,
            "refused: 0..{len} is no range of whole characters in the source (number {number})"
        )?;
    } else {
        writeln!(
            output,
            "refused: the text at 0..{len} is not UTF-8 (number {number})"
        )?;
    }
    say_broken(line)
}

// A row that is no readable string, with its text and the place where reading stops.
fn say_unreadable(line: &[u8], place: usize) -> fmt::Result {
    let mut output = Stream::Output;
    writeln!(
        output,
        "refused: the text at 0..{} is not a readable string: reading stops at its byte {place} (number 6)",
        line.len()
    )?;
    say_stop(line, place)
}

fn say_refused(refusal: Refusal, line: &[u8]) -> fmt::Result {
    if let Refusal::InvalidString { span: _, place } = refusal {
        return say_unreadable(line, place);
    }
    say_refusal(refusal, line)
}

// A row behind its number: its key and its literal, or why it has none.
pub(crate) fn say_answer<'a>(
    line: &'a [u8],
    value: &'a [u8],
    answer: Result<Text, Refusal>,
) -> fmt::Result {
    if let Err(refusal) = answer {
        return say_refused(refusal, line);
    }
    say_key(text_shown(line, value, answer))?;
    say(b"\t")?;
    say_key(line)?;
    say(b"\n")
}
