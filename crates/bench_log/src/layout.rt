// Log records: their layout.
ghost use Rattle.std.specs.Prelude.{◌≡◌, ◌≤◌, length};
ghost use Rattle.bench_log.specs.LogRecord.{length_in, keeps_layout, taken_apart, parts_of};

use codec::{MESSAGE_LIMIT, Refusal};

// A record is a head of four octets and room for the longest message.
pub const RECORD_SIZE: usize = 4 + MESSAGE_LIMIT;

// A record taken apart: its direction, and how many octets after the head are its message.
#[derive(Clone, Copy)]
pub struct Parts {
    pub direction: u8,
    pub length: usize,
}

// The length of the message, as the head gives it.
fn length_in(octets: &[u8]) -> usize
    requires { 4 ≤ length octets.now }
    ensures { result ≡ length_in octets.now }
{
    usize::from(u16::from_le_bytes([octets[2], octets[3]]))
}

#[tactic(auto, using(crate::proofs::Entries::wrong_direction))]
fn keeps_layout(octets: &[u8], limit: usize) -> bool
    ensures { result ≡ keeps_layout limit octets.now }
{
    if octets.len() < 4 {
        return false;
    }
    if octets.len() - 4 != limit {
        return false;
    }
    if 2 <= octets[0] {
        return false;
    }
    if octets[1] != 0 {
        return false;
    }
    let length = length_in(octets);
    if limit < length {
        return false;
    }
    codec::all_zero(&octets[4 + length..])
}

// Takes a record apart, in a log of messages that have at most `limit` octets. Octets that are no record's break the layout.
pub fn take_apart(octets: &[u8], limit: usize) -> Result<Parts, Refusal>
    ensures { result ≡ parts_of (taken_apart limit octets.now) }
{
    if !keeps_layout(octets, limit) {
        return Err(Refusal::BrokenRecord);
    }
    Ok(Parts {
        direction: octets[0],
        length: length_in(octets),
    })
}
