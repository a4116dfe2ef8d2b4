// The blocks of a message one by one, for diagnosis.
ghost use Rattle.std.specs.Prelude.{◌≡◌, ◌+◌, ◌≤◌, ◌<◌, length, Some};
ghost use Rattle.codec.specs.Table.{message_limit, message_of};
ghost use Rattle.codec.specs.Message.{id_of, body, parse};
ghost use Rattle.codec.specs.Listing.{no_block, nth_block};
ghost use Rattle.codec.specs.Inner.Listed.{listed_at, Passes, NthPlace, Starts, Lists};

use crate::checks::{blocks_fault, head_fault};
use crate::columns::Column;
use crate::message::{CAPABILITY_RESPONSE, CONFIGURATION};
use crate::octets::u16_at;
use crate::records::{Block, Capability, Configuration};
use crate::walker::next_place;

// The block at a place.
fn block_at(m: &[u8], at: usize) -> Block
    requires { at + 2 ≤ length m.now }
    ensures { result ≡ listed_at m.now (Some at) }
{
    Block {
        place: at,
        id: m[at],
        size: m[at + 1],
    }
}

// No block.
fn no_block() -> Block
    ensures { result ≡ no_block }
{
    Block {
        place: 0,
        id: 0,
        size: 0,
    }
}

// The place of the n-th block from a place on, of more that are left. The message is behind a second reference, so that the compiler
// makes a loop of the recursion.
fn nth_place(m: &&[u8], at: usize, left: u32, n: usize) -> usize
    requires { Passes m.now.now left at × (n < left) }
    ensures { NthPlace m.now.now left at n (Some result) }
{
    if n == 0 {
        return at;
    }
    nth_place(m, next_place(*m, at), left - 1, n - 1)
}

// The place of the first block of a message with the blocks of a column, if it is not refused.
fn first_in<C: Column>(m: &[u8]) -> Option<usize>
    requires { (2 ≤ length m.now) × (length m.now ≤ message_limit) × (id_of m.now ≡ message_of C.column) × (body m.now ≡ parse m.now) }
    ensures { Starts m.now result }
{
    let mut found = [0u16; 5];
    blocks_fault::<C>(m, &mut found).ok()?;
    Some(C::blocks_at())
}

// The place of the first block of a message that carries blocks and is not refused.
fn first_place(m: &[u8]) -> Option<usize>
    ensures { Starts m.now result }
{
    head_fault(m).ok()?;
    match m[1] {
        CAPABILITY_RESPONSE => first_in::<Capability>(m),
        CONFIGURATION => first_in::<Configuration>(m),
        _ => None,
    }
}

// The place of the n-th block of a message.
fn place_of(m: &[u8], n: usize) -> Option<usize>
    ensures { Lists m.now n result }
{
    let first = first_place(m)?;
    let left = u16::count_ones(u16_at(m, 2));
    if left as usize <= n {
        return None;
    }
    let view = m;
    Some(nth_place(&view, first, left, n))
}

// The n-th block, from 0, of a message 1 or 2 that the reader accepts. None past the last block, for other messages and for
// refused ones.
pub fn block(message: &[u8], n: usize) -> Block
    ensures { result ≡ nth_block message.now n }
{
    match place_of(message, n) {
        Some(at) => block_at(message, at),
        None => no_block(),
    }
}
