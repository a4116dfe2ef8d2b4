// Answers: refusals, and the replies that carry a set.
ghost use Rattle.std.specs.Prelude.{◌≡◌, ◌<◌};
ghost use Rattle.codec.specs.Refusal.{number_of};
ghost use Rattle.session.specs.Rules.{explicit_reply};
ghost use Rattle.session.specs.Inner.Replies.{Delivers, settle};

use crate::state::{Answer, Profile};
use codec::{Refusal, SetMessage, Written, set_if};

impl Answer {
    pub(crate) fn refused(refusal: Refusal) -> Answer
        ensures { result ≡ record { refusal = number_of refusal; length = 0; set = 0; stopped = 0 } }
    {
        Answer {
            refusal: u8::from(refusal),
            length: 0,
            set: 0,
            stopped: 0,
        }
    }

    // The answer once a reply is written, or refused, in which case nothing is set or stopped.
    pub(crate) fn after(w: Written, set: u16, stopped: u16) -> Answer
        ensures { result ≡ settle w set stopped }
    {
        let done = w.refusal == 0;
        let now_set = set_if(done, set);
        let now_stopped = set_if(done, stopped);
        Answer {
            refusal: w.refusal,
            length: w.length,
            set: now_set,
            stopped: now_stopped,
        }
    }
}

// Writes message 3 or 7, with explicit replies on only.
pub(crate) fn deliver(profile: &Profile, message: SetMessage, set: u16, out: &mut [u8]) -> Written
    requires { set < 16 }
    ensures { Delivers (explicit_reply profile.now.replies message set) out.old result out.new }
{
    if !profile.replies_explicitly() {
        return Written {
            refusal: 0,
            length: 0,
        };
    }
    codec::write_set(message, set, out)
}
