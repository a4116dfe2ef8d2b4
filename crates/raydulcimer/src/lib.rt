// The library's calls for C and Rust.
#![tactic(auto)]

ghost use Rattle.std.specs.Prelude.{◌≡◌};
ghost use Rattle.codec.specs.Listing.{nth_block};
ghost use Rattle.codec.specs.Message.{Reads};
ghost use Rattle.codec.specs.Writing.{WritesTyped};
ghost use Rattle.session.specs.Rules.{message, advertisement};
ghost use Rattle.session.specs.Session.{Does, profile_of, started};

use codec::message::{CAPABILITY_RESPONSE, CONFIGURATION};
use codec::technology::SET_LIMIT;
use codec::{Block, Reading, Record, Written};
use session::{Answer, Session, Started};

// Reads a message as `codec::read` does. It returns by the kind of message here too, so that the compiler puts each record straight
// into what is returned. The known bits of a set are in its low octet.
#[unsafe(no_mangle)]
pub extern "C" fn raydulcimer_read(message: &[u8]) -> Reading
    ensures { Reads message.now result }
{
    let places = match codec::find(message) {
        Ok(places) => places,
        Err(refusal) => return codec::refused(u8::from(refusal)),
    };
    let id = message[1];
    let set = message[2] as u16 % SET_LIMIT;
    if id == CAPABILITY_RESPONSE {
        return codec::response_read(set, message, &places);
    }
    if id == CONFIGURATION {
        return codec::configuration_read(set, message, &places);
    }
    codec::set_read(id, set)
}

// Writes a record's normal form into the first octets of a buffer. A record that is not valid and then a buffer that is
// too short are refused, and the buffer stays as it is.
#[unsafe(no_mangle)]
pub extern "C" fn raydulcimer_write(value: Record, out: &mut [u8]) -> Written
    ensures { WritesTyped value out.old result out.new }
{
    codec::write(value, out)
}

// The n-th block of a message, from 0, for diagnosis.
#[unsafe(no_mangle)]
pub extern "C" fn raydulcimer_nth_block(message: &[u8], n: usize) -> Block
    ensures { result ≡ nth_block message.now n }
{
    codec::block(message, n)
}

// Starts a session with a profile and a choice of explicit replies.
#[unsafe(no_mangle)]
pub extern "C" fn raydulcimer_start(profile: Record, replies: u8) -> Started
    ensures { result ≡ started (profile_of profile replies) }
{
    session::start(profile, replies)
}

// Gives a session a message.
#[unsafe(no_mangle)]
pub extern "C" fn raydulcimer_message(s: &mut Session, octets: &[u8], out: &mut [u8]) -> Answer
    ensures { Does s.old (record { said = message octets.now; lent = out.old }) result s.new out.new }
{
    let t = session::message(*s, octets, out);
    *s = t.session;
    t.answer
}

// Has a session advertise its whole profile.
#[unsafe(no_mangle)]
pub extern "C" fn raydulcimer_advertise(s: &mut Session, out: &mut [u8]) -> Answer
    ensures { Does s.old (record { said = advertisement; lent = out.old }) result s.new out.new }
{
    let t = session::advertise(*s, out);
    *s = t.session;
    t.answer
}
