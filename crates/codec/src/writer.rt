// The writer: the normal form of a valid record, into the first octets of a lent buffer.
ghost use Rattle.std.specs.Prelude.{◌≡◌, true, cond, ◌+◌, ◌≤◌, ◌<◌, length};
ghost use Rattle.codec.specs.Layout.{write};
ghost use Rattle.codec.specs.Refusal.{number_of};
ghost use Rattle.codec.specs.Table.{assigned, row};
ghost use Rattle.codec.specs.Inner.Places.{set_alone};
ghost use Rattle.codec.specs.Records.{response, only, settings_record, without_blocks, set_record};
ghost use Rattle.codec.specs.Writing.{Writes, WritesTyped};
ghost use Rattle.codec.specs.Inner.Puts.{Put, block_if, head, column_octets, Held, Fits};

use crate::columns::Column;
use crate::fields::Fields;
use crate::message::{CAPABILITY_RESPONSE, CONFIGURATION, assigned};
use crate::octets::{put, put_u16};
use crate::records::{Capability, Configuration, Record, SetMessage, Written, message_id};
use crate::refusal::Refusal;
use crate::technology::{CS, NAN, RSSI, SET_LIMIT, UWB, has};
use crate::validity::{is_zero, rest_zero, valid_column, valid_only};

// How many octets a block takes, if it is there.
fn size_if<F: Fields>(present: bool, block: &F) -> usize
    requires { Held F.layout (F.values block.now) }
    ensures { (result ≡ cond present (2 + length (write F.layout (F.values block.now))) 0) × (result < 256) }
{
    if !present {
        return 0;
    }
    block.size() as usize
}

// How many octets the blocks of a set take.
fn size_blocks<C: Column>(set: u16, c: &C) -> usize
    requires { Fits C.column (C.kept c.now) }
    ensures { (result ≡ length (column_octets C.column set (C.kept c.now))) × (result < 1024) }
{
    let uwb = size_if(has(set, UWB), c.uwb());
    let cs = size_if(has(set, CS), c.cs());
    let nan = size_if(has(set, NAN), c.nan());
    let rssi = size_if(has(set, RSSI), c.rssi());
    uwb + (cs + (nan + rssi))
}

// Writes a block, if it is there.
fn put_block<F: Fields>(present: bool, id: u8, block: &F, out: &mut [u8], at: usize) -> usize
    requires { (at + length (block_if present F.layout id (F.values block.now)) ≤ length out.old) × Held F.layout (F.values block.now) }
    ensures { Put out.old at (block_if present F.layout id (F.values block.now)) out.new result }
{
    if !present {
        return at;
    }
    let size = put(out, at, id);
    let fields = put(out, size, block.size());
    block.put_fields(out, fields)
}

// Writes the blocks of a set.
fn put_blocks<C: Column>(set: u16, c: &C, out: &mut [u8], at: usize) -> usize
    requires { (at + length (column_octets C.column set (C.kept c.now)) ≤ length out.old) × Fits C.column (C.kept c.now) }
    ensures { Put out.old at (column_octets C.column set (C.kept c.now)) out.new result }
{
    let cs = put_block(has(set, UWB), UWB, c.uwb(), out, at);
    let nan = put_block(has(set, CS), CS, c.cs(), out, cs);
    let rssi = put_block(has(set, NAN), NAN, c.nan(), out, nan);
    put_block(has(set, RSSI), RSSI, c.rssi(), out, rssi)
}

// Writes the version, the message ID and the set.
fn put_head(id: u8, set: u16, out: &mut [u8]) -> usize
    requires { 4 ≤ length out.old }
    ensures { Put out.old 0 (head id set) out.new result }
{
    let next = put(out, 0, 1);
    let first = put(out, next, id);
    put_u16(out, first, set)
}

fn refused(refusal: Refusal) -> Written
    ensures { result ≡ record { refusal = number_of refusal; length = 0 } }
{
    Written {
        refusal: u8::from(refusal),
        length: 0,
    }
}

// Writes a Capability Response with those of these blocks that the set names, as `write` does.
pub fn write_capability_response(set: u16, c: &Capability, out: &mut [u8]) -> Written
    ensures { Writes (response set (only set c.now)) out.old result out.new }
{
    if !valid_only(set, c) {
        return refused(Refusal::NotValid);
    }
    let length = 4 + size_blocks(set, c);
    if out.len() < length {
        return refused(Refusal::BufferTooShort);
    }
    let blocks = put_head(CAPABILITY_RESPONSE, set, out);
    put_blocks(set, c, out, blocks);
    Written { refusal: 0, length }
}

// Writes a Configuration with these blocks, as `write` does.
fn write_configuration(set: u16, c: &Configuration, out: &mut [u8]) -> Written
    ensures { Writes (settings_record set c.now) out.old result out.new }
{
    if !((set < SET_LIMIT) & valid_column(set, c)) {
        return refused(Refusal::NotValid);
    }
    let length = 6 + size_blocks(set, c);
    if out.len() < length {
        return refused(Refusal::BufferTooShort);
    }
    let again = put_head(CONFIGURATION, set, out);
    let blocks = put_u16(out, again, set);
    put_blocks(set, c, out, blocks);
    Written { refusal: 0, length }
}

// Writes a message without blocks, as `write` does.
fn write_without_blocks(id: u8, set: u16, out: &mut [u8]) -> Written
    requires { (assigned id ≡ true) × (row id ≡ set_alone) }
    ensures { Writes (without_blocks id set) out.old result out.new }
{
    if set >= SET_LIMIT {
        return refused(Refusal::NotValid);
    }
    if out.len() < 4 {
        return refused(Refusal::BufferTooShort);
    }
    put_head(id, set, out);
    Written {
        refusal: 0,
        length: 4,
    }
}

// Writes a message that carries a set and nothing else, as `write` does.
pub fn write_set(message: SetMessage, set: u16, out: &mut [u8]) -> Written
    ensures { Writes (set_record message set) out.old result out.new }
{
    write_without_blocks(message_id(message), set, out)
}

// Writes a record: a record that is not valid and then a buffer that is too short are refused, and the buffer stays. What a
// message does not use has to be zero; the rest is tested where it is written.
pub fn write(value: Record, out: &mut [u8]) -> Written
    ensures { WritesTyped value out.old result out.new }
{
    if value.id == CAPABILITY_RESPONSE {
        let rest = rest_zero(value.set, &value.capability);
        if !(rest & is_zero(&value.configuration)) {
            return refused(Refusal::NotValid);
        }
        return write_capability_response(value.set, &value.capability, out);
    }
    if !is_zero(&value.capability) {
        return refused(Refusal::NotValid);
    }
    if value.id == CONFIGURATION {
        return write_configuration(value.set, &value.configuration, out);
    }
    if !(assigned(value.id) & is_zero(&value.configuration)) {
        return refused(Refusal::NotValid);
    }
    write_without_blocks(value.id, value.set, out)
}
