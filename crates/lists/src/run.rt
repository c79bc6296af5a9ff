// The program `keys`: decodes a list of products, one string literal a line, from standard input; tells each row's key and literal, then the products that
// stand in several rows. With which statuses it ends, `help` says.
//
// A name that was written in parts spans lines, and each line would be taken for a row. It is put into a list as E'..' or U&'..'; or, if it holds no line
// feed, whole or in parts on one line with a space for each line feed, at the setting that it was written at (host/lists/README.md).
//
// A line `-- backslash on` or `-- backslash off`, in any case, sets how the rows behind it are read; at first it is off. Another line that begins with
// `-- backslash` ends the reading, since no row behind it has a meaning. Other lines that begin with `--`, and lines of blanks, are no rows. A row that is
// refused is told with its number and stops nothing; it is shown with a mark under the place where reading stops. A row that means something else at the
// other setting is told with what it means there: a wrong setting gives no other sign.
//
// The list is read through a window of 524,288 bytes, and 32,768 rows and 524,288 bytes of keys are kept for comparing: a row that fills the window is told
// by its line, and a line that fills it and may yet be a setting ends the reading; a row behind those that are kept is told with its key and not compared, and
// the end says from which line on. Where reading fails, the program says behind which line.
ghost use Rattle.std.specs.Prelude.{◌≡◌, ◌≤◌, length};
ghost use Rattle.words.specs.Ending.{asked_of, Ends};

use crate::doubled::{Counts, for_rows, report};
use crate::kept::Kept;
use crate::list::read_list;
use crate::rows::Rows;
use crate::said::{Stopped, say, tell};
use std::io::Stdin;
use words::{Asked, asked_by};

// An array of zeros; its length is a parameter, so that nothing is proved of a long list of them.
fn zeros<const N: usize>() -> [u8; N]
    ensures { N ≡ length result }
{
    [0; N]
}

// Stays: no heap: C's main hands the program no allocator, so that what is kept has fixed room.
fn room() -> [u8; 524288]
    ensures { 524288 ≡ length result }
{
    zeros()
}

// With which status the program ends.
#[derive(Clone, Copy)]
enum Status {
    Done = 0,
    LeftOut = 1,
    Failed = 2,
    Doubled = 3,
}

// A line on standard error, and the status that goes with it.
fn failed(line: &[u8]) -> u32
    ensures { result ≡ 2 }
{
    tell(line);
    Status::Failed as u32
}

fn unwritten() -> u32
    ensures { result ≡ 2 }
{
    failed(b"keys: the output cannot be written\n")
}

// The status of a list that was read to its end: doubled products come first, since they are what an import has to stop for.
fn status_of(rows: &Rows, counts: Counts) -> Status {
    if 0 < counts.doubled {
        return Status::Doubled;
    }
    if (0 < rows.refused) | (0 < rows.unread) | rows.kept.unkept.is_some() {
        return Status::LeftOut;
    }
    Status::Done
}

fn decode(from: &mut Stdin) -> Result<Status, Stopped> {
    let mut window = room();
    let mut value = room();
    let mut other = room();
    let mut store = room();
    let mut ends = for_rows();
    let mut lines = for_rows();
    let kept = Kept::new(&mut store, &mut ends, &mut lines);
    let mut rows = Rows::new(&mut value, &mut other, kept);
    read_list(from, &mut window, &mut rows)?;
    let counts = report(&rows)?;
    Ok(status_of(&rows, counts))
}

// Why a list was not read to its end is told already, but where the output cannot be written.
fn list_status(from: &mut Stdin) -> u32
    ensures { result ≤ 3 }
{
    match decode(from) {
        Ok(status) => status as u32,
        Err(Stopped::Told) => Status::Failed as u32,
        Err(Stopped::Unwritten) => unwritten(),
    }
}

fn help() -> u32
    ensures { result ≤ 2 }
{
    let written = say(
        b"usage: keys [--help] <LIST

Reads a list of products from standard input, one SQL string literal a line, and prints each row's key and literal; behind the rows, the products that stand
in several. Lines end with LF, CR LF or CR. Lines of blanks, and lines that begin with --, are no rows; -- backslash on and -- backslash off say how the
rows behind them are read, and at first it is off.

Status: 3 a product is doubled; else 1 a row is refused, too long to be read, or not compared for want of room; else 0. 2: the list cannot be read to its
end, the output cannot be written, or a word is not understood; then standard error says which.
",
    );
    match written {
        Ok(()) => Status::Done as u32,
        Err(_) => unwritten(),
    }
}

// The program. Its words are those behind its name, each ended by a 0 byte; its result is the status to end with.
// Rules out: a wrong word that ends with the list's status; one that ends with that of --help (must-fail: work_for_a_wrong_word, help_for_a_wrong_word).
#[unsafe(no_mangle)]
pub extern "C" fn valdrabus_keys(input: Stdin, words: &[u8]) -> u32
    ensures { Ends 3 (asked_of words.now) result }
{
    let mut from = input;
    match asked_by(words) {
        Asked::Work => list_status(&mut from),
        Asked::Help => help(),
        Asked::Other => failed(b"keys: it takes no word but --help\nusage: keys [--help] <LIST\n"),
    }
}
