// The session record, and what its calls return.
ghost use Rattle.std.specs.Prelude.{◌≡◌, ℕ, cond};
ghost use Rattle.codec.specs.Technology.{bit, names};
ghost use Rattle.codec.specs.Blocks.{configurations};
ghost use Rattle.codec.specs.Records.{blank};
ghost use Rattle.codec.specs.Inner.Places.{settings_at};
ghost use Rattle.session.specs.Session.{yes, flag, on_session, fresh};

use crate::settings::Settings;
use codec::technology::UWB;
use codec::{Capability, Heard, NanConfiguration, Rssi, UwbConfiguration, has};

// What the tag can do, with the choice of explicit replies: 0 not said, which means off, 1 on, 2 off.
#[repr(C)]
#[derive(Clone, Copy)]
pub struct Profile {
    pub set: u16,
    pub replies: u8,
    pub capability: Capability,
}

// Whether a technology is ranging, 0 no and anything else yes, and its settings in force; zero if it is not.
#[repr(C)]
#[derive(Clone, Copy)]
pub struct UwbState {
    pub ranging: u8,
    pub settings: UwbConfiguration,
}

#[repr(C)]
#[derive(Clone, Copy)]
pub struct NanState {
    pub ranging: u8,
    pub settings: NanConfiguration,
}

#[repr(C)]
#[derive(Clone, Copy)]
pub struct RssiState {
    pub ranging: u8,
    pub settings: Rssi,
}

// The mark, 0 no and anything else yes: a Stop has ended UWB ranging since UWB's capabilities were last given out.
#[repr(C)]
#[derive(Clone, Copy)]
pub struct Session {
    pub profile: Profile,
    pub uwb: UwbState,
    pub nan: NanState,
    pub rssi: RssiState,
    pub mark: u8,
}

// A refusal's number, length 0 and two empty sets, or 0, the reply's length, what the call set and what it stopped.
#[repr(C)]
#[derive(Clone, Copy)]
pub struct Answer {
    pub refusal: u8,
    pub length: usize,
    pub set: u16,
    pub stopped: u16,
}

// The session after a call, and the call's answer.
#[repr(C)]
#[derive(Clone, Copy)]
pub struct Step {
    pub session: Session,
    pub answer: Answer,
}

// A refusal's number and a fresh session with an empty profile, or 0 and a fresh session with the profile.
#[repr(C)]
#[derive(Clone, Copy)]
pub struct Started {
    pub session: Session,
    pub refusal: u8,
}

// What the states of the technologies have in common.
pub(crate) trait State: Copy {
    type Settings: Settings;

    ghost state: { ℕ → Self.Settings → Self };

    ghost ranging: { Self → ℕ };

    fn new(on: bool, settings: Self::Settings) -> Self
        ensures { result ≡ state (flag on) settings };

    fn is_ranging(&self) -> bool
        ensures { result ≡ yes (ranging self.now) };

    fn idle() -> Self
        ensures { result ≡ state 0 (Self.Settings.settings_of (blank configurations)) }
    {
        Self::new(false, Self::Settings::zero())
    }

    // Where a set names the technology, it ranges with its settings from the message.
    fn put(&mut self, set: u16, heard: &Heard, octets: &[u8])
        ensures { self.new ≡ cond (bit set Self.Settings.ID) (state 1 (Self.Settings.settings_of (settings_at heard.now octets.now))) self.old }
    {
        if has(set, Self::Settings::ID) {
            *self = Self::new(true, Self::Settings::at(heard, octets));
        }
    }

    // Where a set names the technology, it stops.
    fn stop(&mut self, set: u16)
        ensures { self.new ≡ cond (bit set Self.Settings.ID) (state 0 (Self.Settings.settings_of (blank configurations))) self.old }
    {
        if has(set, Self::Settings::ID) {
            *self = Self::idle();
        }
    }
}

impl State for UwbState {
    type Settings = UwbConfiguration;

    ghost state = { λ r x. record { ranging = r; settings = x } };

    ghost ranging = { λ s. s.ranging };

    fn new(on: bool, settings: UwbConfiguration) -> UwbState {
        UwbState {
            ranging: u8::from(on),
            settings,
        }
    }

    fn is_ranging(&self) -> bool {
        self.ranging != 0
    }
}

impl State for NanState {
    type Settings = NanConfiguration;

    ghost state = { λ r x. record { ranging = r; settings = x } };

    ghost ranging = { λ s. s.ranging };

    fn new(on: bool, settings: NanConfiguration) -> NanState {
        NanState {
            ranging: u8::from(on),
            settings,
        }
    }

    fn is_ranging(&self) -> bool {
        self.ranging != 0
    }
}

impl State for RssiState {
    type Settings = Rssi;

    ghost state = { λ r x. record { ranging = r; settings = x } };

    ghost ranging = { λ s. s.ranging };

    fn new(on: bool, settings: Rssi) -> RssiState {
        RssiState {
            ranging: u8::from(on),
            settings,
        }
    }

    fn is_ranging(&self) -> bool {
        self.ranging != 0
    }
}

impl Session {
    // Nothing ranges.
    pub(crate) fn fresh(profile: Profile) -> Session
        ensures { result ≡ fresh profile }
    {
        let uwb = UwbState::idle();
        let nan = NanState::idle();
        let rssi = RssiState::idle();
        Session {
            profile,
            uwb,
            nan,
            rssi,
            mark: 0,
        }
    }

    // Whether the mark bars UWB.
    pub(crate) fn is_barred(&self) -> bool
        ensures { result ≡ yes self.now.mark }
    {
        self.mark != 0
    }

    // The capabilities of a set are given out, and UWB loses the mark.
    pub(crate) fn give(&mut self, set: u16)
        ensures { self.new ≡ on_session.give (names set) self.old }
    {
        if has(set, UWB) {
            self.mark = 0;
        }
    }

    // Each technology of a set, except CS, ranges with its settings from the message.
    pub(crate) fn put(&mut self, set: u16, heard: &Heard, octets: &[u8])
        ensures { self.new ≡ on_session.put (names set) (settings_at heard.now octets.now) self.old }
    {
        self.uwb.put(set, heard, octets);
        self.nan.put(set, heard, octets);
        self.rssi.put(set, heard, octets);
    }

    // Each technology of a set stops, and UWB gets the mark.
    pub(crate) fn stop(&mut self, set: u16)
        ensures { self.new ≡ on_session.stop (names set) self.old }
    {
        self.uwb.stop(set);
        self.nan.stop(set);
        self.rssi.stop(set);
        if has(set, UWB) {
            self.mark = 1;
        }
    }
}
