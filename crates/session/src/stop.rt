// Stops: which technologies one ends.
ghost use Rattle.session.specs.Rules.{conclude, halt};
ghost use Rattle.session.specs.Session.{on_session, Gives};

use crate::replies::deliver;
use crate::state::{Answer, Session, State};
use codec::technology::{NAN, RSSI, UWB};
use codec::{SetMessage, has, set_naming};

// Stops the technologies named that are ranging, and writes message 7 with replies on.
pub(crate) fn halt(s: &mut Session, set: u16, out: &mut [u8]) -> Answer
    ensures { Gives s.old (conclude out.old (halt on_session s.old.profile set s.old)) out.old result s.new out.new }
{
    let uwb = has(set, UWB) & s.uwb.is_ranging();
    let nan = has(set, NAN) & s.nan.is_ranging();
    let rssi = has(set, RSSI) & s.rssi.is_ranging();
    let those = set_naming(uwb, false, nan, rssi);
    let w = deliver(&s.profile, SetMessage::StopResponse, those, out);
    let answer = Answer::after(w, 0, those);
    s.stop(answer.stopped);
    answer
}
