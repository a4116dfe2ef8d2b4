// Sessions: of each call its reply, what it set, what it stopped, and what ranges afterwards.
use crate::show::{Names, Octets, Output};
use session::{Answer, Session};
use std::fmt;
use std::fmt::Write;

// What ranges in a session.
#[derive(Clone, Copy)]
struct Ranging<'a>(&'a Session);

impl<'a> fmt::Display for Ranging<'a> {
    fn fmt<W: fmt::Write>(&self, f: &mut fmt::Formatter<W>) -> fmt::Result {
        write!(f, "; ranging")?;
        let uwb = self.0.uwb.ranging != 0;
        let nan = self.0.nan.ranging != 0;
        let rssi = self.0.rssi.ranging != 0;
        if !(uwb || nan || rssi) {
            write!(f, " none")?;
        }
        if uwb {
            let id = self.0.uwb.settings.session_id;
            write!(f, " UWB with session ID {id}")?;
        }
        if nan {
            write!(f, " NAN")?;
        }
        if rssi {
            write!(f, " RSSI")?;
        }
        Ok(())
    }
}

// UWB with channel 9, preamble indexes 1 to 4, config IDs 0 and 1, interval 120, slot 2, roles 1 and 2; CS, NAN and RSSI.
const ALL_FOUR: [u8; 47] =
    *b"\x01\x01\x0F\x00\x00\x14\xA1\xA2\x00\x02\x00\x00\x0F\x00\x00\x00\x03\x00\x00\x00\x78\x00\x02\x03\x01\x09\x1E\xB1\xB2\xB3\xB4\xB5\xB6\x02\x06\x07\x00\x02\x03\x03\x08\xC1\xC2\xC3\xC4\xC5\xC6";

// A session, and where its lines are printed.
#[derive(Drop)]
struct Tag<'a, P> {
    rt: &'a P,
    session: Session,
}

impl<'a, P: Print> Tag<'a, P> {
    // Starts a session whose profile is what a Capability Response says.
    fn begin(rt: &'a P, name: &str, profile: &[u8], replies: u8) -> Tag<'a, P> {
        let started = session::start(codec::read(profile).value, replies);
        let session = started.session;
        if started.refusal != 0 {
            let _ = writeln!(
                Output(rt),
                "{name}: refused {}{}",
                started.refusal,
                Ranging(&session)
            );
        } else {
            let _ = writeln!(Output(rt), "{name}: started{}", Ranging(&session));
        }
        Tag { rt, session }
    }

    fn full(rt: &'a P) -> Tag<'a, P> {
        Tag::begin(rt, "profile of all four", &ALL_FOUR, 1)
    }

    // "NAME: refused 9; ranging none", or "NAME: reply 01 03 08 00; set RSSI; stopped none; ranging RSSI".
    fn report(&self, name: &str, answer: Answer, buffer: &[u8]) {
        if answer.refusal != 0 {
            let _ = writeln!(
                Output(self.rt),
                "{name}: refused {}{}",
                answer.refusal,
                Ranging(&self.session)
            );
            return;
        }
        let length = answer.length;
        let _ = writeln!(
            Output(self.rt),
            "{name}: reply{}; set{}; stopped{}{}",
            Octets { buffer, length },
            Names(answer.set),
            Names(answer.stopped),
            Ranging(&self.session)
        );
    }

    fn hear(&mut self, name: &str, message: &[u8]) {
        let mut out = [0u8; 64];
        let step = session::message(self.session, message, &mut out);
        self.session = step.session;
        self.report(name, step.answer, &out);
    }

    fn advertise(&mut self, name: &str) {
        let mut out = [0u8; 64];
        let step = session::advertise(self.session, &mut out);
        self.session = step.session;
        self.report(name, step.answer, &out);
    }

    // Hears a Configuration of UWB: session ID, channel and preamble index as given, the rest within the profile.
    fn uwb(&mut self, name: &str, id: u8, channel: u8, index: u8) {
        let mut m =
            *b"\x01\x02\x01\x00\x01\x00\x00\x1B\xD1\xD2\x00\x00\x00\x00\x01\x00\x00\xF0\x00\x02\x08KEYKEYKEDE\x01\x02";
        m[10] = id;
        m[15] = channel;
        m[16] = index;
        self.hear(name, &m);
    }
}

// The examples of the rules.
fn rssi_only(rt: &impl Print) {
    let mut tag = Tag::begin(
        rt,
        "profile of RSSI only",
        b"\x01\x01\x08\x00\x03\x08\xA1\xA2\xA3\xA4\xA5\xA6",
        1,
    );
    tag.hear("Request 09", b"\x01\x00\x09\x00");
    tag.hear(
        "Configuration of RSSI",
        b"\x01\x02\x08\x00\x08\x00\x03\x08\xC1\xC2\xC3\xC4\xC5\xC6",
    );
    tag.hear("Stop 09", b"\x01\x06\x09\x00");
    tag.hear("the same Stop again", b"\x01\x06\x09\x00");
}

// A second Configuration that is unfit keeps the running settings.
fn unfit(rt: &impl Print) {
    let mut tag = Tag::full(rt);
    tag.uwb("UWB, preamble index 4", 1, 9, 4);
    tag.uwb("UWB, preamble index 5", 2, 9, 5);
    tag.uwb("UWB, channel 5", 3, 5, 1);
    tag.uwb("UWB, preamble index 0", 4, 9, 0);
    tag.uwb("UWB, channel 32", 5, 32, 1);
    tag.uwb("UWB, preamble index 1", 6, 9, 1);
}

// After a Stop that ended it, UWB needs its capabilities given out again.
fn barred(rt: &impl Print) {
    let mut tag = Tag::full(rt);
    tag.hear("Stop of UWB, not ranging", b"\x01\x06\x01\x00");
    tag.uwb("UWB", 1, 9, 1);
    tag.hear("Stop of UWB", b"\x01\x06\x01\x00");
    tag.uwb("UWB after its Stop", 2, 9, 1);
    tag.hear("Request for RSSI", b"\x01\x00\x08\x00");
    tag.uwb("UWB still", 3, 9, 1);
    tag.hear("Request for UWB", b"\x01\x00\x01\x00");
    tag.uwb("UWB again", 4, 9, 1);
    tag.hear("Stop of all", b"\x01\x06\x0F\x00");
    tag.advertise("advertisement");
    tag.uwb("UWB after the advertisement", 5, 9, 1);
}

// CS can be set and is never ranging; NAN is periodic only where the profile is.
fn others(rt: &impl Print) {
    let mut tag = Tag::full(rt);
    tag.hear(
        "CS level 4",
        b"\x01\x02\x02\x00\x02\x00\x01\x09\x04\xE1\xE2\xE3\xE4\xE5\xE6",
    );
    tag.hear(
        "CS level 0",
        b"\x01\x02\x02\x00\x02\x00\x01\x09\x00\xE1\xE2\xE3\xE4\xE5\xE6",
    );
    tag.hear("Stop of CS", b"\x01\x06\x02\x00");
    tag.hear(
        "NAN, periodic",
        b"\x01\x02\x04\x00\x04\x00\x02\x09\x04LENT\x00\x01",
    );
    tag.hear(
        "NAN, not periodic",
        b"\x01\x02\x04\x00\x04\x00\x02\x09\x04LENT\x00\x00",
    );
}

fn refusals(rt: &impl Print) {
    let mut tag = Tag::full(rt);
    tag.hear("Capability Response", b"\x01\x01\x00\x00");
    tag.hear("reserved ID", b"\x01\x08\x00\x00");
    let mut out = [0u8; 3];
    let step = session::message(tag.session, b"\x01\x06\x00\x00", &mut out);
    tag.session = step.session;
    tag.report("Stop with a buffer of 3", step.answer, &out);
    tag.session.mark = 1;
    tag.uwb("UWB with a forged mark", 1, 9, 1);
    tag.hear("Request", b"\x01\x00\x00\x00");
    Tag::begin(rt, "reply choice 3", b"\x01\x01\x00\x00", 3);
    // its choice of replies is refused with it
    let mut tag = Tag::begin(rt, "profile that is not valid", b"\x01\x00\x00\x00", 1);
    tag.hear("Request after it", b"\x01\x00\x0F\x00");
    tag.hear("Stop after it", b"\x01\x06\x0F\x00");
}

// Messages 3 and 7 are written with explicit replies on only. The sets are returned all the same.
fn choice(rt: &impl Print, name: &str, replies: u8) {
    let mut tag = Tag::begin(rt, name, &ALL_FOUR, replies);
    tag.uwb("UWB", 1, 9, 1);
    tag.hear("Request for NAN", b"\x01\x00\x04\x00");
    tag.hear("Stop of all", b"\x01\x06\x0F\x00");
}

pub(crate) fn run(rt: &impl Print) {
    rssi_only(rt);
    unfit(rt);
    barred(rt);
    others(rt);
    refusals(rt);
    choice(rt, "replies not said", 0);
    choice(rt, "replies on", 1);
    choice(rt, "replies off", 2);
}
