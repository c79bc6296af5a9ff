// [01 Record program litrec] The program: records of 64 bytes from standard input, one line each to standard output; a short last record is refused with 10.
// It reads blocks of 256 records, and writes the lines of each block at once. Where reading or writing fails it says so on standard error and ends with 2: a
// list of answers that was cut off must not look whole.
ghost use Rattle.std.specs.Prelude.{◌≡◌, ◌+◌, ◌*◌, ◌≤◌, length, IfOk};
ghost use Rattle.io.specs.Counts.{IsPrefixLen};
ghost use Rattle.records.specs.Lines.{Lines};
ghost use Rattle.words.specs.Ending.{asked_of, Ends};

use crate::record::record_line;
use std::io::{Read, Stdin};
use words::{Asked, asked_by};

const STDOUT_FILENO: i32 = 1;

const STDERR_FILENO: i32 = 2;

// Puts the line of each record at the buffer's start, one behind the other, and says how long they are; a line has at most 192 bytes.
// Rules out: each line put over the one before; the first record passed over; the records behind the first left out
// (must-fail: records_over_each_other, record_passed_over, later_records_left_out).
fn answer_records(input: &[u8], output: &mut [u8]) -> usize
    requires { 3 * length input.now + 192 ≤ length output.old }
    ensures { Lines input.now output.old result output.new }
{
    let mut full: usize = 0;
    for record in input.chunks(64) {
        full += record_line(record, &mut output[full..]);
    }
    full
}

// Why the records are not all answered.
#[derive(Clone, Copy)]
enum Unanswered {
    Unread,
    Unwritten,
}

// Reads until the block is full, or the input ends: tells how many bytes it has. `io::read_full` does not tell the end of the input from a failure.
fn fill(from: &mut Stdin, input: &mut [u8]) -> Result<usize, Unanswered>
    ensures { IfOk result (λ n. IsPrefixLen n input.new) }
{
    let mut done: usize = 0;
    while done < input.len() {
        match from.read(&mut input[done..]) {
            Ok(0) => return Ok(done),
            Ok(n) => done += n,
            Err(_) => return Err(Unanswered::Unread),
        }
    }
    Ok(done)
}

// Answers a block of records; tells whether it was the last. Of one that is cut off by a failure none is answered: its last record may not be short.
fn answer_block(from: &mut Stdin, input: &mut [u8], output: &mut [u8]) -> Result<bool, Unanswered>
    requires { 3 * length input.old + 192 ≤ length output.old }
{
    let n = fill(from, input)?;
    let full = answer_records(&input[..n], output);
    if !io::write_all(STDOUT_FILENO, &output[..full]) {
        return Err(Unanswered::Unwritten);
    }
    Ok(n < input.len())
}

// Every block but the last fills the buffer with 256 whole records, so that the lines of the blocks, one behind the other, are the lines of the whole
// input (laws: blocks_output). The buffers are made once: to clear them for each block took as long as all else.
fn answer_input(from: &mut Stdin) -> Result<(), Unanswered> {
    let mut input = [0u8; 16384];
    let mut output = io::large_buffer();
    for _ in 0..u64::MAX {
        if answer_block(from, &mut input, &mut output)? {
            return Ok(());
        }
    }
    Err(Unanswered::Unread)
}

// With which status the program ends.
#[derive(Clone, Copy)]
enum Status {
    Done = 0,
    Failed = 2,
}

// A line on standard error, and the status that goes with it.
fn failed(line: &[u8]) -> u32
    ensures { result ≡ 2 }
{
    io::write_all(STDERR_FILENO, line);
    Status::Failed as u32
}

fn unwritten() -> u32
    ensures { result ≡ 2 }
{
    failed(b"litrec: the output cannot be written\n")
}

fn status_of(answered: Result<(), Unanswered>) -> u32
    ensures { result ≤ 2 }
{
    match answered {
        Ok(()) => Status::Done as u32,
        Err(Unanswered::Unread) => failed(b"litrec: the input cannot be read\n"),
        Err(Unanswered::Unwritten) => unwritten(),
    }
}

fn help() -> u32
    ensures { result ≤ 2 }
{
    let written = io::write_all(
        STDOUT_FILENO,
        b"usage: litrec [--help] <RECORDS

Reads records of 64 bytes from standard input, and writes a line for each to standard output.

A record: a byte for the question (1 string, 2 i64, 3 decimal text, 4 bits, 5 money, 6 temporal text, 7 charset name), one for the kind (1 integer, 2 float,
3 decimal, 4 string, 5 true, 6 false, 7 null, 8 date, 9 time, 10 timestamp, 11 interval, 12 binary bits, 13 hex bits, 14 money), one for the setting (0, or 1
for backslash escapes), one for the text's length (0 to 60), then 60 bytes: the text, zero behind it.

A line: the number of the answer (0 answered, 10 a bad record, others as include/valdrabus.h lists them); b borrowed, w written, i an integer, n no charset
name, - refused; the length, for i the value; the text in hex, - for none.

Status: 0 all records are answered; 2 the input cannot be read or the output cannot be written to its end, or a word is not understood: then standard
error says which.
",
    );
    if written {
        return Status::Done as u32;
    }
    unwritten()
}

// The program. Its words are those behind its name, each ended by a 0 byte; its result is the status to end with.
// Rules out: a wrong word that ends with the records' status; one that ends with that of --help (must-fail: work_for_a_wrong_word, help_for_a_wrong_word).
#[unsafe(no_mangle)]
pub extern "C" fn valdrabus_litrec(input: Stdin, words: &[u8]) -> u32
    ensures { Ends 2 (asked_of words.now) result }
{
    let mut from = input;
    match asked_by(words) {
        Asked::Work => status_of(answer_input(&mut from)),
        Asked::Help => help(),
        Asked::Other => failed(
            b"litrec: it takes no word but --help\nusage: litrec [--help] <RECORDS\n",
        ),
    }
}
