// Keys kept for comparing, one behind the other in a store, with where each ends there and on which line it stands.
use doubles::key_at;
use leaves::puts::put_bytes;

// Rows with a key for which there was no room, and the line of the first.
#[derive(Clone, Copy)]
pub(crate) struct Unkept {
    pub rows: usize,
    pub first_line: usize,
}

// Stays: no heap: the room is lent, and `find_before` takes the store and the ends as slices of their own.
#[derive(Drop)]
pub(crate) struct Kept<'a> {
    store: &'a mut [u8],
    ends: &'a mut [usize],
    lines: &'a mut [usize],
    rows: usize,
    filled: usize,
    pub unkept: Option<Unkept>,
}

impl<'a> Kept<'a> {
    // Stays: no heap: the arrays are lent, and `find_before` takes one of them as it is.
    pub(crate) fn new(
        store: &'a mut [u8],
        ends: &'a mut [usize],
        lines: &'a mut [usize],
    ) -> Kept<'a> {
        Kept {
            store,
            ends,
            lines,
            rows: 0,
            filled: 0,
            unkept: None,
        }
    }

    // Copies a key behind those in the store, and its end and line behind theirs; false where there is no room for one of them.
    fn put(&mut self, key: &[u8], line: usize) -> bool {
        let (row, from) = (self.rows, self.filled);
        let until = from.wrapping_add(key.len());
        let Some(place) = self.store.get_mut(from..until) else {
            return false;
        };
        put_bytes(key, place);
        let Some(end) = self.ends.get_mut(row) else {
            return false;
        };
        *end = until;
        let Some(on) = self.lines.get_mut(row) else {
            return false;
        };
        *on = line;
        self.filled = until;
        self.rows = row.wrapping_add(1);
        true
    }

    // Keeps a row's key for comparing, as long as there is room; once there is none, no later key is kept.
    pub(crate) fn keep(&mut self, key: &[u8], line: usize) {
        if let Some(unkept) = self.unkept {
            self.unkept = Some(Unkept {
                rows: unkept.rows.wrapping_add(1),
                first_line: unkept.first_line,
            });
        } else if !self.put(key, line) {
            self.unkept = Some(Unkept {
                rows: 1,
                first_line: line,
            });
        }
    }

    pub(crate) fn rows(&self) -> usize {
        self.rows
    }

    pub(crate) fn store(&self) -> &[u8] {
        self.store
    }

    // Where the keys end in the store.
    pub(crate) fn ends(&self) -> &[usize] {
        self.ends.get(..self.rows).unwrap_or(&[])
    }

    pub(crate) fn key(&self, row: usize) -> &[u8] {
        key_at(self.store, self.ends, row)
    }

    // The line of a row; 0 past the last.
    // Stays: only rows that are kept are asked for; an Option would be met by a default in both callers.
    pub(crate) fn line(&self, row: usize) -> usize {
        self.lines.get(row).copied().unwrap_or(0)
    }
}
