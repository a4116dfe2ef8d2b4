// The calls: start, message, advertise. They lend the capability to the writer from the session itself.
ghost use Rattle.std.specs.Prelude.{◌≡◌, true};
ghost use Rattle.codec.specs.Refusal.{demand};
ghost use Rattle.codec.specs.declared.refusal.Refusal.TheVariants.{NotValid};
ghost use Rattle.codec.specs.Technology.{names};
ghost use Rattle.codec.specs.Inner.Places.{Hears};
ghost use Rattle.codec.specs.Message.{reading};
ghost use Rattle.session.specs.Rules.{Said, valid_profile, conclude, give_out};
ghost use Rattle.session.specs.Session.{on_session, Gives, Does, profile_of, started};

use crate::configuration::configure;
use crate::profile::Choice;
use crate::state::{Answer, Profile, Session, Started, Step};
use crate::stop::halt;
use codec::message::{CAPABILITY_REQUEST, CAPABILITY_RESPONSE, CONFIGURATION, STOP};
use codec::technology::ALL;
use codec::{Heard, Record, Refusal, common, set_if};

// A session with an accepted profile, or 12 and a fresh session with an empty one, replies not said.
pub fn start(profile: Record, replies: u8) -> Started
    ensures { result ≡ started (profile_of profile replies) }
{
    let response = (profile.id == CAPABILITY_RESPONSE)
        & codec::valid_response(profile.set, &profile.capability)
        & codec::is_zero(&profile.configuration);
    if !(response & Choice::numbered(replies).is_some()) {
        return Started {
            session: Session::fresh(Profile::empty()),
            refusal: u8::from(Refusal::NotValid),
        };
    }
    Started {
        session: Session::fresh(Profile {
            set: profile.set,
            replies,
            capability: profile.capability,
        }),
        refusal: 0,
    }
}

// What a tag with this profile hears: 12 if the profile is not valid, else what the reader says.
fn hear(profile: &Profile, octets: &[u8]) -> Result<Heard, Refusal>
    ensures { Hears (demand (valid_profile profile.now) NotValid (reading octets.now)) octets.now result }
{
    if !profile.is_valid() {
        return Err(Refusal::NotValid);
    }
    codec::hear(octets)
}

// Gives the capabilities out that are wanted and in the profile, by message 1.
fn give_out(s: &mut Session, wanted: u16, out: &mut [u8]) -> Answer
    requires { valid_profile s.now.profile ≡ true }
    ensures { Gives s.old (conclude out.old (give_out on_session s.old.profile (names wanted) s.old)) out.old result s.new out.new }
{
    let blocks = common(wanted, s.profile.set);
    let w = codec::write_capability_response(blocks, &s.profile.capability, out);
    s.give(set_if(w.refusal == 0, blocks));
    Answer::after(w, 0, 0)
}

// What a session answers to a message.
fn respond(s: &mut Session, octets: &[u8], out: &mut [u8]) -> Answer
    ensures { Does s.old (record { said = Said.message octets.now; lent = out.old }) result s.new out.new }
{
    let heard = match hear(&s.profile, octets) {
        Ok(heard) => heard,
        Err(refusal) => return Answer::refused(refusal),
    };
    match heard.id {
        CAPABILITY_REQUEST => give_out(s, heard.set, out),
        CONFIGURATION => configure(s, &heard, octets, out),
        STOP => halt(s, heard.set, out),
        _ => Answer::refused(Refusal::NotForTag),
    }
}

// A message to the tag.
pub fn message(mut s: Session, octets: &[u8], out: &mut [u8]) -> Step
    ensures { Does s (record { said = Said.message octets.now; lent = out.old }) result.answer result.session out.new }
{
    let answer = respond(&mut s, octets, out);
    Step { session: s, answer }
}

// An advertisement of the whole profile.
pub fn advertise(mut s: Session, out: &mut [u8]) -> Step
    ensures { Does s (record { said = Said.advertisement; lent = out.old }) result.answer result.session out.new }
{
    let answer = if s.profile.is_valid() {
        give_out(&mut s, ALL, out)
    } else {
        Answer::refused(Refusal::NotValid)
    };
    Step { session: s, answer }
}
