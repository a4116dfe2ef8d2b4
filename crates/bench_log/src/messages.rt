// What differs in two accepted messages: the ID, and where it is equal which technologies are present, and the fields of their blocks.
ghost use Rattle.std.specs.Prelude.{◌≡◌, ◌+◌, ◌<◌, ◌≤◌, map, length, if◌then◌else◌};
ghost use mathlib.Core.List.{flatten};
ghost use Rattle.codec.specs.Technology.{uwb, cs, nan, rssi, technologies, bit};
ghost use Rattle.codec.specs.Inner.Places.{record_at};
ghost use Rattle.codec.specs.Inner.Puts.{Put};
ghost use Rattle.bench_log.specs.Comparison.{difference_lines};
ghost use Rattle.bench_log.specs.Inner.Differences.{presence_difference, technology_by, column_by, section_limit, section_in, SectionsReady, read_differences, messages_limit, MessagesReady};

use crate::block::Column;
use crate::difference::Heading;
use crate::found::Found;
use crate::sections::put_section;
use codec::message::{CAPABILITY_RESPONSE, CONFIGURATION};
use codec::technology::{CS, NAN, RSSI, UWB};

fn presence(set: u16, id: u8) -> u64
    ensures { result ≡ (if bit set id then 1 else 0) }
{
    u64::from(codec::has(set, id))
}

// The presence of a technology in two sets.
fn put_presence(out: &mut [u8], at: usize, number: u64, id: u8, left: u16, right: u16) -> usize
    requires { (id < 4) × (at + 90 ≤ length out.old) }
    ensures text { Put out.old at (difference_lines number (presence_difference left right (technology_by id))) out.new result }
    ensures limit { result ≤ at + 90 }
{
    let heading = Heading::of_block(number, id);
    heading.put_numbers(
        out,
        at,
        b"presence",
        presence(left, id),
        presence(right, id),
    )
}

// The presence of each technology in two sets.
fn put_presences(out: &mut [u8], at: usize, number: u64, left: u16, right: u16) -> usize
    requires { at + 360 ≤ length out.old }
    ensures { Put out.old at (difference_lines number (flatten (map (presence_difference left right) technologies))) out.new result × (result ≤ at + 360) }
{
    let cs = put_presence(out, at, number, UWB, left, right);
    let nan = put_presence(out, cs, number, CS, left, right);
    let rssi = put_presence(out, nan, number, NAN, left, right);
    put_presence(out, rssi, number, RSSI, left, right)
}

// The blocks of the technologies in the sets of both messages.
fn put_sections(
    out: &mut [u8],
    at: usize,
    number: u64,
    column: Column,
    left: &Found,
    right: &Found,
) -> usize
    requires { SectionsReady (column_by column) left.now.set right.now.set left.now.message.now left.now.places right.now.message.now right.now.places at out.old }
    ensures { Put out.old at (difference_lines number (flatten (map (section_in (column_by column) left.now.set right.now.set left.now.message.now left.now.places right.now.message.now right.now.places) technologies))) out.new result
        × (result ≤ at + (section_limit (column_by column) uwb + (section_limit (column_by column) cs + (section_limit (column_by column) nan + section_limit (column_by column) rssi)))) }
{
    let p = put_section(out, at, number, column, UWB, left, right);
    let q = put_section(out, p, number, column, CS, left, right);
    let r = put_section(out, q, number, column, NAN, left, right);
    put_section(out, r, number, column, RSSI, left, right)
}

// Two accepted messages.
pub(crate) fn put_messages(
    out: &mut [u8],
    at: usize,
    number: u64,
    left: &Found,
    right: &Found,
) -> usize
    requires { MessagesReady left.now.message.now left.now.places right.now.message.now right.now.places at out.old }
    ensures { Put out.old at (difference_lines number (read_differences (record_at left.now.message.now left.now.places) (record_at right.now.message.now right.now.places))) out.new result
        × (result ≤ at + messages_limit) }
{
    let id = left.id();
    let other = right.id();
    if id != other {
        let heading = Heading::of_record(number);
        return heading.put_numbers(out, at, b"message ID", u64::from(id), u64::from(other));
    }
    let next = put_presences(out, at, number, left.set, right.set);
    match id {
        CAPABILITY_RESPONSE => {
            put_sections(out, next, number, Column::Capabilities, left, right)
        }
        CONFIGURATION => { put_sections(out, next, number, Column::Configurations, left, right) }
        _ => next,
    }
}
