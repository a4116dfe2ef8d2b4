// The order of checks: a message's first fault, and the places of its blocks where there is none.
ghost use Rattle.std.specs.Prelude.{◌≡◌, true, ◌≤◌, length};
ghost use Rattle.codec.specs.Table.{message_limit, message_of, readable, row};
ghost use Rattle.codec.specs.Message.{id_of, end_fault, body, parse, blocks_at};
ghost use Rattle.codec.specs.Inner.Places.{head_fault, verdict, set_alone, carries_blocks, Judged};

use crate::columns::Column;
use crate::message::{CAPABILITY_RESPONSE, CONFIGURATION, assigned};
use crate::octets::u16_at;
use crate::records::{Capability, Configuration};
use crate::refusal::Refusal;
use crate::walk::walk;

// A message has at most so many octets.
pub const MESSAGE_LIMIT: usize = 256;

// The first fault in the head of a message, before its version.
pub(crate) fn head_fault(m: &[u8]) -> Result<(), Refusal>
    ensures { result ≡ head_fault m.now }
{
    if MESSAGE_LIMIT < m.len() {
        return Err(Refusal::TooLong);
    }
    if m.len() < 2 {
        return Err(Refusal::EndsEarly);
    }
    if !assigned(m[1]) {
        return Err(Refusal::ReservedId);
    }
    Ok(())
}

// Whether a version of a message is read.
#[tactic(auto, unfolding(crate::specs::Table::readable))]
fn readable(version: u8, id: u8) -> bool
    ensures { result ≡ readable version id }
{
    if version == 1 {
        return true;
    }
    (1 < version) & (id < 2)
}

// The rule for the end of the message, from the place after its known part.
#[tactic(auto, unfolding(crate::specs::Message::end_fault))]
fn end_fault(m: &[u8], end: usize) -> Result<(), Refusal>
    requires { 4 ≤ length m.now }
    ensures { result ≡ end_fault m.now end }
{
    if m.len() <= end {
        return Ok(());
    }
    if m[0] == 1 {
        return Err(Refusal::LeftOver);
    }
    Ok(())
}

// The first fault from the version on of a message that carries a set alone.
pub(crate) fn set_fault(m: &[u8]) -> Result<(), Refusal>
    requires { (2 ≤ length m.now) × (row (id_of m.now) ≡ set_alone) }
    ensures { result ≡ verdict (body m.now) }
{
    if !readable(m[0], m[1]) {
        return Err(Refusal::WrongVersion);
    }
    if m.len() < 4 {
        return Err(Refusal::EndsEarly);
    }
    end_fault(m, 4)
}

// The first fault from the version on of a message with the blocks of a column. Its last set is the first, where it has but one.
pub(crate) fn blocks_fault<C: Column>(m: &[u8], found: &mut [u16; 5]) -> Result<(), Refusal>
    requires { (2 ≤ length m.now) × (length m.now ≤ message_limit) × (id_of m.now ≡ message_of C.column) × (length found.old ≡ 5) }
    ensures { Judged true (body m.now) (blocks_at (row (message_of C.column)).times) found.old result found.new }
{
    if !readable(m[0], m[1]) {
        return Err(Refusal::WrongVersion);
    }
    let first = C::blocks_at();
    if m.len() < first {
        return Err(Refusal::EndsEarly);
    }
    let set = u16_at(m, 2);
    if set != u16_at(m, first - 2) {
        return Err(Refusal::SetsDiffer);
    }
    let view = m;
    let mut outcome = Ok(());
    walk::<C>(&view, first, set, 0, found, &mut outcome);
    outcome?;
    end_fault(m, usize::from(found[4]))
}

// The first fault of a message; for none, `found` has the places of the blocks of message 1 or 2.
pub(crate) fn message_fault(m: &[u8], found: &mut [u16; 5]) -> Result<(), Refusal>
    requires { length found.old ≡ 5 }
    ensures { Judged (carries_blocks (row (id_of m.now)).column) (parse m.now) (blocks_at (row (id_of m.now)).times) found.old result found.new }
{
    head_fault(m)?;
    match m[1] {
        CAPABILITY_RESPONSE => blocks_fault::<Capability>(m, found),
        CONFIGURATION => blocks_fault::<Configuration>(m, found),
        _ => set_fault(m),
    }
}
