// The reader: the record of a message that the order of checks does not refuse is made once, from the places of its blocks.
ghost use Rattle.std.specs.Prelude.{◌≡◌};
ghost use Rattle.codec.specs.Blocks.{capabilities, configurations};
ghost use Rattle.codec.specs.Message.{reading, Reads};
ghost use Rattle.codec.specs.Records.{answer, accepted, response, settings_record, without_blocks};
ghost use Rattle.codec.specs.Inner.Places.{column_at, Located, Placed};

use crate::checks::message_fault;
use crate::columns::{column_at, zero};
use crate::message::{CAPABILITY_RESPONSE, CONFIGURATION};
use crate::octets::u16_at;
use crate::places::NO_PLACE;
use crate::records::{Reading, Record, refused};
use crate::refusal::Refusal;
use crate::technology::SET_LIMIT;

// Finds the blocks of a message: the places at which reading gives its record.
pub fn find(message: &[u8]) -> Result<[u16; 5], Refusal>
    ensures { Located message.now result }
{
    let mut places = [NO_PLACE; 5];
    message_fault(message, &mut places)?;
    Ok(places)
}

// An accepted Capability Response with the blocks at these places.
pub fn response_read(set: u16, m: &[u8], places: &[u16; 5]) -> Reading
    ensures { result ≡ accepted (response set (column_at capabilities m.now places.now)) }
{
    let capability = column_at(m, places);
    let configuration = zero();
    Reading {
        refusal: 0,
        value: Record {
            id: CAPABILITY_RESPONSE,
            set,
            capability,
            configuration,
        },
    }
}

// An accepted Configuration with the blocks at these places.
pub fn configuration_read(set: u16, m: &[u8], places: &[u16; 5]) -> Reading
    ensures { result ≡ accepted (settings_record set (column_at configurations m.now places.now)) }
{
    let configuration = column_at(m, places);
    let capability = zero();
    Reading {
        refusal: 0,
        value: Record {
            id: CONFIGURATION,
            set,
            capability,
            configuration,
        },
    }
}

// An accepted message that carries a set alone.
pub fn set_read(id: u8, set: u16) -> Reading
    ensures { result ≡ accepted (without_blocks id set) }
{
    let capability = zero();
    let configuration = zero();
    Reading {
        refusal: 0,
        value: Record {
            id,
            set,
            capability,
            configuration,
        },
    }
}

// The record of a message whose blocks were found at these places.
fn read_at(message: &[u8], places: &[u16; 5]) -> Reading
    requires { Placed message.now places.now }
    ensures { result ≡ answer (reading message.now) }
{
    let id = message[1];
    let set = u16_at(message, 2) % SET_LIMIT;
    if id == CAPABILITY_RESPONSE {
        return response_read(set, message, places);
    }
    if id == CONFIGURATION {
        return configuration_read(set, message, places);
    }
    set_read(id, set)
}

// Reads a message: its record, or the number of the refusal that the order of checks names.
pub fn read(message: &[u8]) -> Reading
    ensures { Reads message.now result }
{
    let places = match find(message) {
        Ok(places) => places,
        Err(refusal) => return refused(u8::from(refusal)),
    };
    read_at(message, &places)
}
