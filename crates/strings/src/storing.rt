// Bytes that are read, behind those that were read before: in a chunk, and from a full chunk into what is lent of the caller's buffer. Where nothing is lent they are
// only counted.
ghost use Rattle.std.specs.Prelude.{◌≡◌, ◌+◌, ◌≤◌, ◌<◌, length};
ghost use Rattle.strings.specs.Storing.{Behind, Empties, Fills, ReadsBody};

use crate::chunks::{End, end_at, take_turn};
use escapes::units::Family;
use leaves::puts::put_bytes;

// What is stored: `total` bytes in what is lent of the buffer, as far as they fit, and n behind them in the chunk.
#[derive(Clone, Copy)]
pub(crate) struct Store {
    pub total: usize,
    pub n: usize,
}

// How far a body is read, whether each of its bytes stands for itself, what is stored, and why nothing more is read.
#[derive(Clone, Copy)]
pub(crate) struct Body {
    pub at: usize,
    pub plain: bool,
    pub total: usize,
    pub n: usize,
    pub end: End,
}

// Puts bytes behind the first `total` of a buffer, if there is room.
pub(crate) fn put_behind(bytes: &[u8], total: usize, out: &mut [u8])
    ensures { Behind bytes.now total out.old out.new }
{
    if total <= out.len() {
        put_bytes(bytes, &mut out[total..]);
    }
}

// Empties a chunk that may be too full for another turn.
fn make_room(store: Store, chunk: &[u8], out: &mut [u8]) -> Store
    requires { (store.n ≤ length chunk.now) × (store.total + store.n < 18446744073709551616) }
    ensures { Empties store chunk.now out.old result out.new }
{
    let total = store.total;
    let n = store.n;
    if n <= 208 {
        return store;
    }
    put_behind(&chunk[..n], total, out);
    Store {
        total: total + n,
        n: 0,
    }
}

// One turn more, into the chunk.
fn fill(text: &[u8], family: Family, body: Body, chunk: &mut [u8], out: &mut [u8]) -> Body
    requires { (length chunk.old ≡ 240) × (body.n ≤ 240) × (body.at ≤ length text.now) × (body.total + body.n + length text.now < 18446744073709551616 + body.at) }
    ensures { Fills family text.now body chunk.old out.old result chunk.new out.new }
{
    let from = body.at;
    let store = Store {
        total: body.total,
        n: body.n,
    };
    let ready = make_room(store, chunk, out);
    let n = ready.n;
    let turn = take_turn(&text[from..], family, &mut chunk[n..]);
    let at = from + turn.at;
    let end = end_at(text, at, family, turn.ends);
    Body {
        at,
        plain: body.plain & turn.plain,
        total: ready.total,
        n: n + turn.n,
        end,
    }
}

// Reads a body, from behind its opening up to a mark that stands alone, or to what cannot be read here.
pub(crate) fn read_body(
    text: &[u8],
    family: Family,
    store: Store,
    chunk: &mut [u8],
    out: &mut [u8],
) -> Body
    requires { (length chunk.old ≡ 240) × (store.n ≤ 240) × (store.total + store.n + length text.now < 18446744073709551616) }
    ensures { ReadsBody family text.now store chunk.old out.old result chunk.new out.new }
{
    let mut body = Body {
        at: 0,
        plain: true,
        total: store.total,
        n: store.n,
        end: End::More,
    };
    loop {
        body = fill(text, family, body, chunk, out);
        let end = body.end;
        if let End::More = end {} else {
            return body;
        }
    }
}
