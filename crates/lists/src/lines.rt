// What a line of a list is: a row, a setting, or neither. In a setting case and the blanks around it do not count; in a row they do.

// Stays: four kinds of lines; in a Result a row and a setting would be one, and each match of them two deep.
#[derive(Clone, Copy)]
pub(crate) enum Line {
    Row,
    // A line of blanks, or a comment.
    Passed,
    Backslash(bool),
    // A comment that begins as a setting does, and is none.
    NoSetting,
}

fn is_blank(byte: u8) -> bool {
    matches!(byte, b' ' | b'\t' | b'\x0C')
}

// A text without the blanks around it.
fn trimmed(text: &[u8]) -> &[u8] {
    let Some(from) = text.iter().position(|byte| !is_blank(*byte)) else {
        return &text[..0];
    };
    let rest = &text[from..];
    match rest.iter().rposition(|byte| !is_blank(*byte)) {
        Some(last) => &rest[..last + 1],
        None => &text[..0],
    }
}

// What a comment says.
fn comment(text: &[u8]) -> Line {
    if text.eq_ignore_ascii_case(b"backslash on") {
        return Line::Backslash(true);
    }
    if text.eq_ignore_ascii_case(b"backslash off") {
        return Line::Backslash(false);
    }
    // Stays: `is_some_and` would need an `if` with the same two answers behind it.
    match text.get(..9) {
        Some(word) if word.eq_ignore_ascii_case(b"backslash") => Line::NoSetting,
        _ => Line::Passed,
    }
}

pub(crate) fn line_of(line: &[u8]) -> Line {
    let text = trimmed(line);
    if let Some(said) = text.strip_prefix(b"--") {
        return comment(trimmed(said));
    }
    if text.is_empty() {
        return Line::Passed;
    }
    Line::Row
}

// Whether the beginning of a line leaves open that the whole line is a setting: blanks alone, the first dash of a comment, or a comment whose first word is not
// there whole.
pub(crate) fn may_set(line: &[u8]) -> bool {
    let text = trimmed(line);
    match text.strip_prefix(b"--") {
        Some(said) => trimmed(said).len() < 9,
        None => b"-".starts_with(text),
    }
}

// A list's first line without the byte order mark that editors put there: with it the first row would be no string. Of a later line it is a part.
pub(crate) fn without_order_mark(line: &[u8], lines_before: usize) -> &[u8] {
    if lines_before != 0 {
        return line;
    }
    line.strip_prefix(b"\xEF\xBB\xBF").unwrap_or(line)
}
