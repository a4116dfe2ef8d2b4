// A block by its size, the second octet of its head.
ghost use Rattle.std.specs.Prelude.{◌≡◌, ◌+◌, ◌≤◌, length, get_or};
ghost use Rattle.codec.specs.Message.{block_at};
ghost use Rattle.codec.specs.Inner.Places.{size_fault};

use crate::refusal::Refusal;

// The first fault in the size of the block at a place.
pub(crate) fn size_fault(m: &[u8], at: usize, least: u8) -> Result<(), Refusal>
    requires { at + 2 ≤ length m.now }
    ensures { result ≡ size_fault least m.now at }
{
    let size = m[at + 1];
    if (least <= size) & (size as usize <= m.len() - at) {
        return Ok(());
    }
    if size < least {
        return Err(Refusal::BlockTooSmall);
    }
    Err(Refusal::EndsEarly)
}

// The octets of the block at a place, which the message has.
pub(crate) fn block_octets(m: &[u8], at: usize) -> &[u8]
    requires { (at + 2 ≤ length m.now) × (at + get_or m.now (at + 1) 0 ≤ length m.now) }
    ensures { (result.now ≡ block_at m.now at) × (length result.now ≡ get_or m.now (at + 1) 0) }
{
    let end = at + m[at + 1] as usize;
    &m[at..end]
}
