// Bytes put at a buffer's start, and where the next ones go.
ghost use Rattle.leaves.specs.Puts.{Puts, Least};

// Copies a slice to the buffer's start and says how long it is; where there is no room it copies nothing and says 0.
// Stays: no Option: `Puts`, the clause of this public function, which could not fail and still can't, says 0 for no room.
// Stays: no `copy_from_slice`, for which the archive would need C's memmove (docs/TRUST names memcpy alone).
// Rules out: a shorter buffer written to; the first byte copied for each (must-fail: one_for_another, start_asked_again).
pub fn put_bytes(bytes: &[u8], out: &mut [u8]) -> usize
    ensures { Puts bytes.now out.old result out.new }
{
    if out.len() < bytes.len() {
        return 0;
    }
    for (place, byte) in bytes.iter().enumerate() {
        out[place] = *byte;
    }
    bytes.len()
}

// The lesser of two numbers: where the part of a buffer begins that is still to be written, if what is counted so far may be longer than the buffer.
// Stays: another name for `min`; a public function keeps its name.
// Rules out: the greater told; always the second told (must-fail: greater_for_least, second_for_least).
pub fn least(a: usize, b: usize) -> usize
    ensures { Least a b result }
{
    a.min(b)
}
