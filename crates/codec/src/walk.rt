// The walk over the blocks of a message, for any column of blocks. It keeps numbers only.
ghost use Rattle.std.specs.Prelude.{◌≡◌, ◌+◌, ◌≤◌, length, get_or};
ghost use Rattle.codec.specs.Technology.{bit};
ghost use Rattle.codec.specs.Blocks.{layouts};
ghost use Rattle.codec.specs.Table.{message_limit};
ghost use Rattle.codec.specs.Message.{set_of, place_after, block_fault};
ghost use Rattle.codec.specs.Inner.MetIds.{Met};
ghost use Rattle.codec.specs.Inner.Places.{id_fault, note, FindsLeft};

use crate::columns::Column;
use crate::refusal::Refusal;
use crate::technology::{RESERVED, also_met, has_bit, unmet};
use crate::walker::next_place;

// The first fault in the head of the block at a place.
fn id_fault(m: &[u8], at: usize, set: u16, met: u16) -> Result<(), Refusal>
    requires { at ≤ length m.now }
    ensures { result ≡ id_fault set met m.now at }
{
    if m.len() - at < 2 {
        return Err(Refusal::EndsEarly);
    }
    // no bit in the set, or met before
    if !has_bit(unmet(set, met), m[at]) {
        return Err(Refusal::WrongBlock);
    }
    Ok(())
}

// Keeps the place of the block, if its technology is known, and gives the place after it.
fn pass(m: &[u8], at: usize, found: &mut [u16; 5]) -> usize
    requires { (at + 2 ≤ length m.now) × (length m.now ≤ message_limit) × (length found.old ≡ 5) }
    ensures { (result ≡ place_after m.now at) × (found.new ≡ note (get_or m.now at 0) at found.old) × (length found.new ≡ 5) }
{
    // before the place is kept: after a store the compiler would read the size again
    let next = next_place(m, at);
    let id = m[at];
    if id < RESERVED {
        found[id as usize] = at as u16;
        return next;
    }
    next
}

// The first fault of the block at a place, of a message with this set, after blocks whose IDs were met.
fn turn_fault<C: Column>(m: &[u8], at: usize, set: u16, met: u16) -> Result<(), Refusal>
    requires { at ≤ length m.now }
    ensures { result ≡ block_fault (layouts C.column) set m.now (bit met) at }
{
    id_fault(m, at, set, met)?;
    C::fault(m, at)
}

// Puts into `outcome` the first fault of the blocks that are left, from a place on. For none, `found` has the places of the known
// technologies' blocks and the place after the last block. Of the IDs it keeps one number, `met`, with a bit for each ID met; as many
// blocks are left as the set has other bits. The message is behind a second reference and nothing is returned, so that the compiler
// makes a loop of the recursion.
pub(crate) fn walk<C: Column>(
    m: &&[u8],
    at: usize,
    set: u16,
    met: u16,
    found: &mut [u16; 5],
    outcome: &mut Result<(), Refusal>,
)
    requires { (length m.now.now ≤ message_limit) × (at ≤ length m.now.now) × (length found.old ≡ 5) × (set ≡ set_of m.now.now) × Met C.column m.now.now at met }
    ensures { FindsLeft C.column m.now.now at met found.old outcome.new found.new }
{
    let left = u32::count_ones(unmet(set, met));
    if left == 0 {
        found[4] = at as u16;
        *outcome = Ok(());
        return;
    }
    match turn_fault::<C>(*m, at, set, met) {
        Err(refusal) => *outcome = Err(refusal),
        Ok(()) => {
            let more = also_met(met, m[at]);
            let next = pass(*m, at, found);
            walk::<C>(m, next, set, more, found, outcome)
        }
    }
}
