// Which rows of a list have a key that stood before. A wrong answer here counts a shelf twice, or two shelves once.
// The keys stand one behind the other in a store; `ends` tells of each row where its key ends there.
#![tactic(auto)]

ghost use Rattle.std.specs.Prelude.{◌≡◌, ◌+◌, ◌<◌, ◌^◌, IfSome, MatchOption, length, get_or};
ghost use Rattle.meaning.specs.Answers.{IsPart};
ghost use Rattle.doubles.specs.Rows.{start_of, key_at, key_place, before_of};
ghost use Rattle.doubles.specs.Finding.{bucket_of, Linked, Ready, Took, Finds};

use check::same;
use leaves::views::part_of;

// Where the key of a row ends, and where it begins.
fn end_of(ends: &[usize], row: usize) -> usize
    ensures { result ≡ get_or ends.now row 0 }
{
    ends.get(row).copied().unwrap_or(0)
}

fn start_of(ends: &[usize], row: usize) -> usize
    ensures { result ≡ start_of ends.now row }
{
    match row.checked_sub(1) {
        Some(before) => end_of(ends, before),
        None => 0,
    }
}

// The key of a row; empty where it does not fit the store.
// Stays: a public function keeps its parameters; a struct of store and ends would be made anew for each call.
// Rules out: a key with those before it; a key ended where the first ends; a key begun where it ends (must-fail: key_with_those_before,
// key_ends_with_the_first, key_begins_at_its_end).
pub fn key_at<'a>(store: &'a [u8], ends: &[usize], row: usize) -> &'a [u8]
    ensures { IsPart (key_at store.now ends.now row) (key_place store.entry ends.now row) result }
{
    part_of(store, start_of(ends, row), end_of(ends, row))
}

// The bucket of a key: a sum over its bytes, by a prime below 2^16, so that a turn never passes 64 bits.
fn bucket_of(key: &[u8], buckets: usize) -> usize
    requires { 0 < buckets }
    ensures { result ≡ bucket_of buckets key.now }
{
    let mut sum: usize = 0;
    for byte in key {
        sum = (sum * 257 + *byte as usize) % 65521;
    }
    sum % buckets
}

// The newest row before a row that has its key. It looks at the rows of its bucket alone, from the newest on; links to them count from 1, and are 0 at the end.
// Stays: no heap: the slices are lent to `find_before`, whose clause `Finds` says what each holds.
fn newest_same(
    store: &[u8],
    ends: &[usize],
    older: &[usize],
    row: usize,
    newest: usize,
) -> Option<usize>
    requires { Linked store.now ends.now older.now row newest }
    ensures { MatchOption result (before_of store.now ends.now row ≡ 0)
        (λ at. before_of store.now ends.now row ≡ at + 1) }
{
    let mut link = newest;
    while let Some(at) = link.checked_sub(1) {
        if same(key_at(store, ends, at), key_at(store, ends, row)) {
            return Some(at);
        }
        link = older[at];
    }
    None
}

// A row counted from 1; 0 for none.
// Stays: `Finds`, the clause of `find_before`, says that `before` counts rows from 1 and holds 0 for none.
fn counted(row: Option<usize>) -> usize
    requires { IfSome row (λ at. at + 1 < 2 ^ 64) }
    ensures { MatchOption row (result ≡ 0) (λ at. result ≡ at + 1) }
{
    match row {
        Some(at) => at + 1,
        None => 0,
    }
}

// Takes one more row: finds the row before it that has its key, and puts it first in its bucket.
// Stays: no heap: the slices are lent to `find_before`, whose clause `Finds` says what each holds.
fn take_row(
    store: &[u8],
    ends: &[usize],
    heads: &mut [usize],
    older: &mut [usize],
    before: &mut [usize],
    row: usize,
)
    requires { Ready store.now ends.now heads.old older.old before.old row }
    ensures { Took store.now ends.now heads.old older.old before.old row
        heads.new older.new before.new }
{
    let bucket = bucket_of(key_at(store, ends, row), heads.len());
    let newest = heads[bucket];
    before[row] = counted(newest_same(store, ends, older, row, newest));
    older[row] = newest;
    heads[bucket] = row + 1;
}

// For each row the newest row before it that has its key, counted from 1; 0 if there is none. `heads` and `older` are room to work in; with about as many
// heads as rows few keys are compared. Where there is no head, or `older` or `before` is shorter than `ends`, it answers false and writes nothing.
// Stays: no heap: the room is lent, and `Finds`, the clause of this public function, says what each slice holds.
// Rules out: a double that is missed, because another key of its bucket hides it, or because it is not taken; keys of one bucket taken for one; rows of
// an earlier call found (must-fail: link_cut, row_passed_over, newest_of_the_bucket_told, buckets_not_cleared).
pub fn find_before(
    store: &[u8],
    ends: &[usize],
    heads: &mut [usize],
    older: &mut [usize],
    before: &mut [usize],
) -> bool
    ensures { Finds store.now ends.now heads.old older.old before.old result
        heads.new older.new before.new }
{
    let rows = ends.len();
    if heads.is_empty() || older.len() < rows || before.len() < rows {
        return false;
    }
    heads.fill(0);
    for row in 0..rows {
        take_row(store, ends, heads, older, before, row);
    }
    true
}
