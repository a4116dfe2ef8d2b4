// Entries: what is listed of a log record.
ghost use Rattle.std.specs.Prelude.{◌≡◌};
ghost use Rattle.codec.specs.Message.{reading};
ghost use Rattle.bench_log.specs.LogRecord.{listed, entry_of};

use crate::layout::take_apart;
use codec::{MESSAGE_LIMIT, Refusal};

// Of an accepted message: its ID and its set.
#[derive(Clone, Copy)]
pub struct Accepted {
    pub id: u8,
    pub set: u16,
}

// What is listed of a record: its direction, and what is of its message.
#[derive(Clone, Copy)]
pub struct Entry {
    pub direction: u8,
    pub message: Result<Accepted, Refusal>,
}

// What is listed of a message.
fn listed(message: &[u8]) -> Result<Accepted, Refusal>
    ensures { result ≡ listed (reading message.now) }
{
    let heard = codec::hear(message)?;
    Ok(Accepted {
        id: heard.id,
        set: heard.set,
    })
}

// What an entry says of a record's octets. Those that are no record's break the layout.
pub fn entry_of(octets: &[u8]) -> Entry
    ensures { result ≡ entry_of octets.now }
{
    match take_apart(octets, MESSAGE_LIMIT) {
        Err(refusal) => Entry {
            direction: 0,
            message: Err(refusal),
        },
        Ok(parts) => Entry {
            direction: parts.direction,
            message: listed(&octets[4..4 + parts.length]),
        },
    }
}
