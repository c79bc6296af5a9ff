// The view of an answer by its numbers.
ghost use Rattle.std.specs.Prelude.{◌≡◌};
ghost use Rattle.valdrabus.specs.Views.{view_call, Shows};

// Which of source and buffer is shown (0 neither, 1 the source, 2 the buffer), and the range in it.
// Stays: the numbers that `valdrabus_view` hands to C (`viewed` of specs/Views names them).
#[derive(Clone, Copy)]
pub(crate) struct View {
    pub which: u32,
    pub from: usize,
    pub until: usize,
}

// Stays: the C interface gives the answer as numbers, of any value, and `view_call` of specs/Views says which show a part.
fn view_called(how: u32, first: usize, second: usize, source_len: usize, out_len: usize) -> View
    ensures { result ≡ view_call how first second source_len out_len }
{
    if (how == 1) & ((first <= second) & (second <= source_len)) {
        return View {
            which: 1,
            from: first,
            until: second,
        };
    }
    if (how == 2) & ((first <= second) & (second <= out_len)) {
        return View {
            which: 2,
            from: first,
            until: second,
        };
    }
    View {
        which: 0,
        from: 0,
        until: 0,
    }
}

// The part that an answer shows; a range that does not fit, or a refusal, shows an empty part.
// Rules out: the end told for the start; the start told for the end (must-fail: one_for_another, another_place).
#[unsafe(no_mangle)]
pub extern "C" fn valdrabus_view(
    how: u32,
    first: usize,
    second: usize,
    source_len: usize,
    out_len: usize,
    from: &mut usize,
    until: &mut usize,
) -> u32
    ensures { Shows (view_call how first second source_len out_len) result from.new until.new }
{
    let view = view_called(how, first, second, source_len, out_len);
    *from = view.from;
    *until = view.until;
    view.which
}
