// A byte at a place.
ghost use Rattle.std.specs.Prelude.{◌≡◌, slice_index};

// The byte at a place of a text; 0 past its end.
// Stays: no Option: a public function that could not fail still can't, and its clause is `slice_index text.now at`.
// Rules out: another byte given past the end; a byte read past the end (must-fail: other_bytes, past_the_end).
pub fn byte_at(text: &[u8], at: usize) -> u8
    ensures { result ≡ slice_index text.now at }
{
    text.get(at).copied().unwrap_or(0)
}
