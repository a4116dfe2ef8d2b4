// A walker over the blocks of a message: it holds the message and a place in it. `place_after`, on the slice and the number, does
// the work; `next_place` stands above the walker and has plain parameters.
ghost use Rattle.std.specs.Prelude.{◌≡◌, ◌+◌, ◌≤◌, length};
ghost use Rattle.codec.specs.Message.{place_after};

#[derive(Clone, Copy)]
struct Walker<'a> {
    message: &'a [u8],
    at: usize,
}

// The place after the block at a place, by its size.
fn place_after(m: &[u8], at: usize) -> usize
    requires { at + 2 ≤ length m.now }
    ensures { result ≡ place_after m.now at }
{
    at + m[at + 1] as usize
}

// A walker at a place.
fn walker_at<'a>(message: &'a [u8], at: usize) -> Walker<'a>
    ensures { (result.message ≡ message.entry) × (result.at ≡ at) }
{
    Walker { message, at }
}

// The walker past the block at its place.
fn past<'a>(w: Walker<'a>) -> Walker<'a>
    requires { w.at + 2 ≤ length w.message.now }
    ensures { (result.message ≡ w.entry.message) × (result.at ≡ place_after w.entry.message.now w.entry.at) }
{
    let at = place_after(w.message, w.at);
    Walker {
        message: w.message,
        at,
    }
}

// The place to which a walker goes from a place.
pub(crate) fn next_place(m: &[u8], at: usize) -> usize
    requires { at + 2 ≤ length m.now }
    ensures { result ≡ place_after m.now at }
{
    past(walker_at(m, at)).at
}
