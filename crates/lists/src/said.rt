// Writing: rows to standard output, what went wrong to standard error.
use std::fmt;
use std::fmt::Write;

// A standard stream, by its number. It keeps nothing back: each piece is written at once.
#[derive(Clone, Copy)]
pub(crate) enum Stream {
    Output = 1,
    Error = 2,
}

impl Stream {
    pub(crate) fn put(self, bytes: &[u8]) -> fmt::Result {
        if io::write_all(self as i32, bytes) {
            Ok(())
        } else {
            Err(fmt::Error)
        }
    }
}

impl fmt::Write for Stream {
    fn write_str(&mut self, text: &str) -> fmt::Result {
        self.put(text.as_bytes())
    }
}

// Why a list is not read to its end: that is told already; or not all of the output was written, and what would come behind it would look as if nothing were
// missing.
#[derive(Clone, Copy)]
pub(crate) enum Stopped {
    Told,
    Unwritten,
}

impl From<fmt::Error> for Stopped {
    fn from(_: fmt::Error) -> Stopped {
        Stopped::Unwritten
    }
}

pub(crate) fn say(bytes: &[u8]) -> fmt::Result {
    Stream::Output.put(bytes)
}

// A line's number in six places, and two blanks.
pub(crate) fn say_line(n: usize) -> fmt::Result {
    let mut output = Stream::Output;
    write!(output, "{n:>6}  ")
}

// What is told need not be written: there is nobody left to tell.
pub(crate) fn tell(bytes: &[u8]) {
    let _ = Stream::Error.put(bytes);
}

// A number alone: what stands before and behind it is told by itself, so that each part is tried whatever became of the one before.
pub(crate) fn tell_number(n: usize) {
    let mut error = Stream::Error;
    let _ = write!(error, "{n}");
}
