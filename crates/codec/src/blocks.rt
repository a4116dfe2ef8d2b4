// The first fault of a block by its technology's ID.
ghost use Rattle.std.specs.Prelude.{◌≡◌, ◌+◌, ◌≤◌, length};
ghost use Rattle.codec.specs.Technology.{uwb, cs, nan};
ghost use Rattle.codec.specs.Blocks.{Column, cell, layouts};
ghost use Rattle.codec.specs.Inner.Places.{layout_fault, fields_fault};

use crate::fields::Fields;
use crate::refusal::Refusal;
use crate::rssi::Rssi;
use crate::sizes::{block_octets, size_fault};
use crate::technology::{CS, NAN, RSSI, UWB};

// The first fault of the block at a place of a message: its size, and then its fields.
fn block_fault<F: Fields>(m: &[u8], at: usize) -> Result<(), Refusal>
    requires { at + 2 ≤ length m.now }
    ensures { result ≡ layout_fault F.layout m.now at }
{
    size_fault(m, at, F::least())?;
    F::fault(block_octets(m, at))
}

// The same by its ID, with the fields that each technology has in a column. A block of an unknown technology is passed over by its
// size.
pub(crate) fn fault_by_id<Uwb: Fields, Cs: Fields, Nan: Fields>(
    m: &[u8],
    at: usize,
) -> Result<(), Refusal>
    requires { at + 2 ≤ length m.now }
    ensures { (k : Column) → Uwb.layout ≡ cell k uwb → Cs.layout ≡ cell k cs → Nan.layout ≡ cell k nan → result ≡ fields_fault (layouts k) m.now at }
{
    match m[at] {
        UWB => block_fault::<Uwb>(m, at),
        CS => block_fault::<Cs>(m, at),
        NAN => block_fault::<Nan>(m, at),
        RSSI => block_fault::<Rssi>(m, at),
        _ => size_fault(m, at, 2),
    }
}
