// Configurations: which technologies are eligible, and which of them one sets.
ghost use Rattle.std.specs.Prelude.{◌≡◌, ◌&&◌, not};
ghost use Rattle.codec.specs.Technology.{bit};
ghost use Rattle.codec.specs.Inner.Places.{settings_at};
ghost use Rattle.session.specs.Rules.{conclude, configure};
ghost use Rattle.session.specs.Session.{on_session, Gives};

use crate::replies::deliver;
use crate::settings::Settings;
use crate::state::{Answer, Profile, Session};
use codec::{
    CsConfiguration, Heard, NanConfiguration, Rssi, SetMessage, UwbConfiguration, both_have,
    set_naming,
};

// Whether a Configuration sets a technology: it names it, the profile has it, its settings lie within the profile, and it is not barred.
fn eligible<T: Settings>(profile: &Profile, heard: &Heard, octets: &[u8], barred: bool) -> bool
    ensures { result ≡ (bit heard.now.set T.ID && (bit profile.now.set T.ID && (T.fits profile.now.capability (T.settings_of (settings_at heard.now octets.now)) && not barred))) }
{
    let named = both_have(heard.set, profile.set, T::ID);
    if !named | barred {
        return false;
    }
    T::at(heard, octets).is_within(&profile.capability)
}

// Sets what a Configuration sets, which is all that is eligible, and writes message 3 with replies on.
pub(crate) fn configure(s: &mut Session, heard: &Heard, octets: &[u8], out: &mut [u8]) -> Answer
    ensures { Gives s.old (conclude out.old (configure on_session s.old.profile heard.now.set (settings_at heard.now octets.now) s.old)) out.old result s.new out.new }
{
    let uwb = eligible::<UwbConfiguration>(&s.profile, heard, octets, s.is_barred());
    let cs = eligible::<CsConfiguration>(&s.profile, heard, octets, false);
    let nan = eligible::<NanConfiguration>(&s.profile, heard, octets, false);
    let rssi = eligible::<Rssi>(&s.profile, heard, octets, false);
    let those = set_naming(uwb, cs, nan, rssi);
    let w = deliver(&s.profile, SetMessage::ConfigurationResponse, those, out);
    let answer = Answer::after(w, those, 0);
    s.put(answer.set, heard, octets);
    answer
}
