// Messages: what each is, the reader's answer, and whether an accepted message comes back when its record is written.
use crate::show::{Names, Output};
use std::fmt;
use std::fmt::Write;

// What comes of writing a record again.
#[derive(Clone, Copy)]
enum Again {
    Unchanged,
    Changed { length: usize },
    Refused { refusal: u8 },
}

impl fmt::Display for Again {
    fn fmt<W: fmt::Write>(&self, f: &mut fmt::Formatter<W>) -> fmt::Result {
        match self {
            Again::Unchanged => write!(f, ", unchanged"),
            Again::Changed { length } => write!(f, ", changed to {length} octets"),
            Again::Refused { refusal } => write!(f, ", not written: {refusal}"),
        }
    }
}

// Writes the record again: the same octets, if the message was in normal form.
fn write_again(message: &[u8], value: codec::Record) -> Again {
    let mut out = [0u8; 256];
    let written = codec::write(value, &mut out);
    if written.refusal != 0 {
        return Again::Refused {
            refusal: written.refusal,
        };
    }
    if written.length == message.len() && out.starts_with(message) {
        return Again::Unchanged;
    }
    Again::Changed {
        length: written.length,
    }
}

// "NAME: refused 9", or "NAME: message 0: UWB RSSI, unchanged".
fn check(rt: &impl Print, name: &str, message: &[u8]) {
    let mut out = Output(rt);
    let reading = codec::read(message);
    if reading.refusal != 0 {
        let _ = writeln!(out, "{name}: refused {}", reading.refusal);
        return;
    }
    let value = reading.value;
    let _ = writeln!(
        out,
        "{name}: message {}:{}{}",
        value.id,
        Names(value.set),
        write_again(message, value)
    );
}

fn starred_heads(rt: &impl Print) {
    check(rt, "empty", b"");
    check(rt, "01", b"\x01");
    check(rt, "01 00 09", b"\x01\x00\x09");
    check(rt, "01 00 09 00", b"\x01\x00\x09\x00");
    check(rt, "01 00 09 00 00", b"\x01\x00\x09\x00\x00");
    check(rt, "03 00 19 00 AA", b"\x03\x00\x19\x00\xAA");
    check(rt, "00 06 01 00", b"\x00\x06\x01\x00");
    check(rt, "03 06 01 00", b"\x03\x06\x01\x00");
    check(rt, "01 02 02 00 0A 00", b"\x01\x02\x02\x00\x0A\x00");
    check(rt, "01 02 00 00 00 00", b"\x01\x02\x00\x00\x00\x00");
}

fn starred_blocks(rt: &impl Print) {
    check(
        rt,
        "01 01 08 00 03 07 A1 A2 A3 A4 A5",
        b"\x01\x01\x08\x00\x03\x07\xA1\xA2\xA3\xA4\xA5",
    );
    check(rt, "01 01 08 00 03 08 A1", b"\x01\x01\x08\x00\x03\x08\xA1");
    check(rt, "01 01 08 00 00 14", b"\x01\x01\x08\x00\x00\x14");
    check(
        rt,
        "01 02 02 00 02 00 01 09 05 B1 B2 B3 B4 B5 B6",
        b"\x01\x02\x02\x00\x02\x00\x01\x09\x05\xB1\xB2\xB3\xB4\xB5\xB6",
    );
    check(
        rt,
        "01 02 02 00 02 00 01 09 04 B1 B2 B3 B4 B5 B6",
        b"\x01\x02\x02\x00\x02\x00\x01\x09\x04\xB1\xB2\xB3\xB4\xB5\xB6",
    );
}

// At and above the message limit.
fn lengths(rt: &impl Print) {
    let mut long = [0u8; 257];
    long[0] = 2;
    long[2] = 9;
    check(rt, "257 octets", &long[..257]);
    check(rt, "256-octet Request of version 2", &long[..256]);
    long[0] = 1;
    check(rt, "256-octet Request of version 1", &long[..256]);
}

// Accepted, not normal.
fn not_normal(rt: &impl Print) {
    check(
        rt,
        "RSSI before CS",
        b"\x01\x01\x0A\x00\x03\x08\xA1\xA2\xA3\xA4\xA5\xA6\x01\x09\x1F\xB1\xB2\xB3\xB4\xB5\xB6",
    );
    check(
        rt,
        "RSSI size 09 and an extra octet",
        b"\x01\x01\x08\x00\x03\x09\xA1\xA2\xA3\xA4\xA5\xA6\x00",
    );
    check(
        rt,
        "reserved bit 4 with its block",
        b"\x01\x01\x18\x00\x04\x03\xEE\x03\x08\xA1\xA2\xA3\xA4\xA5\xA6",
    );
}

// Order of the checks, and the second size test.
fn order(rt: &impl Print) {
    check(rt, "reserved ID in version 0", b"\x00\x04\x01\x00");
    check(
        rt,
        "reserved bit 4 without its block",
        b"\x01\x01\x18\x00\x03\x08\xA1\xA2\xA3\xA4\xA5\xA6",
    );
    check(
        rt,
        "RSSI twice",
        b"\x01\x01\x0A\x00\x03\x08\xA1\xA2\xA3\xA4\xA5\xA6\x03\x08\xA1\xA2\xA3\xA4\xA5\xA6",
    );
    check(rt, "second set cut", b"\x01\x02\x02\x00\x0A");
    check(
        rt,
        "name length 0",
        b"\x01\x02\x04\x00\x04\x00\x02\x05\x00\x00\x00",
    );
    check(
        rt,
        "name length 2, size 6",
        b"\x01\x02\x04\x00\x04\x00\x02\x06\x02NM\x00\x00",
    );
    check(
        rt,
        "name length 2, size 7",
        b"\x01\x02\x04\x00\x04\x00\x02\x07\x02NM\x00\x01",
    );
}

// In normal form, without blocks.
fn normal_heads(rt: &impl Print) {
    check(rt, "Capability Request for all", b"\x01\x00\x0F\x00");
    check(rt, "Capability Response of none", b"\x01\x01\x00\x00");
    check(rt, "Configuration Response", b"\x01\x03\x08\x00");
    check(rt, "Stop", b"\x01\x06\x09\x00");
    check(rt, "Stop Response", b"\x01\x07\x08\x00");
}

// In normal form, with one block each.
fn normal_blocks(rt: &impl Print) {
    check(
        rt,
        "Capability Response of UWB",
        b"\x01\x01\x01\x00\x00\x14\xA1\xA2\x20\x02\x00\x00\x00\x0F\x00\x00\x03\x00\x00\x00\xF0\x00\x01\x03",
    );
    check(
        rt,
        "Capability Response of CS",
        b"\x01\x01\x02\x00\x01\x09\x1F\xB1\xB2\xB3\xB4\xB5\xB6",
    );
    check(
        rt,
        "Capability Response of NAN",
        b"\x01\x01\x04\x00\x02\x06\x07\x01\x02\x03",
    );
    check(
        rt,
        "Capability Response of RSSI",
        b"\x01\x01\x08\x00\x03\x08\xA1\xA2\xA3\xA4\xA5\xA6",
    );
    check(
        rt,
        "Configuration of UWB, 16 key octets",
        b"\x01\x02\x01\x00\x01\x00\x00\x23\xA1\xA2\x78\x56\x34\x12\x01\x09\x0B\x60\x00\x01\x10KEYKEYKEYKEYKEYKSE\x01\x02",
    );
    check(
        rt,
        "Configuration of NAN",
        b"\x01\x02\x04\x00\x04\x00\x02\x09\x04LENT\x00\x01",
    );
    check(
        rt,
        "Configuration of RSSI",
        b"\x01\x02\x08\x00\x08\x00\x03\x08\xC1\xC2\xC3\xC4\xC5\xC6",
    );
}

// All four technologies.
fn full(rt: &impl Print) {
    check(
        rt,
        "full Capability Response",
        b"\x01\x01\x0F\x00\x00\x14\xA1\xA2\x20\x02\x00\x00\x00\x0F\x00\x00\x03\x00\x00\x00\x78\x00\x02\x03\x01\x09\x1F\xB1\xB2\xB3\xB4\xB5\xB6\x02\x06\x07\x01\x02\x03\x03\x08\xC1\xC2\xC3\xC4\xC5\xC6",
    );
    check(
        rt,
        "full Configuration",
        b"\x01\x02\x0F\x00\x0F\x00\x00\x1B\xA1\xA2\x01\x00\x00\x00\x01\x09\x0B\xF0\x00\x02\x08KEYKEYKEDE\x01\x02\x01\x09\x04\xB1\xB2\xB3\xB4\xB5\xB6\x02\x09\x04LENT\x00\x01\x03\x08\xC1\xC2\xC3\xC4\xC5\xC6",
    );
}

// A Configuration of UWB with this country, and the rest allowed.
fn check_country(rt: &impl Print, name: &str, first: u8, second: u8) {
    let mut m =
        *b"\x01\x02\x01\x00\x01\x00\x00\x1B\xA1\xA2\x01\x00\x00\x00\x01\x09\x0B\xF0\x00\x02\x08KEYKEYKE??\x01\x02";
    m[29] = first;
    m[30] = second;
    check(rt, name, &m);
}

// Two letters, or 00 for a country that is not known.
fn countries(rt: &impl Print) {
    check_country(rt, "country 00", b'0', b'0');
    check_country(rt, "country A0", b'A', b'0');
    check_country(rt, "country 0A", b'0', b'A');
    check_country(rt, "country of two zero octets", 0, 0);
    check_country(rt, "country /0", b'/', b'0');
    check_country(rt, "country :0", b':', b'0');
    check_country(rt, "country de", b'd', b'e');
}

pub(crate) fn run(rt: &impl Print) {
    starred_heads(rt);
    starred_blocks(rt);
    lengths(rt);
    not_normal(rt);
    order(rt);
    normal_heads(rt);
    normal_blocks(rt);
    full(rt);
    countries(rt);
}
