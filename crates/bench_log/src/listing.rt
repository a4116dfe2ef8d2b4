// The listing: lines of records and the last line, laid out in a lent buffer.
ghost use Rattle.std.specs.Prelude.{◌≡◌, ◌+◌, ◌≤◌, ◌++◌, length};
ghost use Rattle.codec.specs.Inner.Puts.{Put};
ghost use Rattle.codec.specs.Writing.{fitting, LaysOut};
ghost use Rattle.bench_log.specs.Text.{decimal};
ghost use Rattle.bench_log.specs.Listing.{letter, verdict, entry_text, line, last_line, line_limit, Lists};

use crate::entry::{Accepted, Entry, entry_of};
use crate::layout::RECORD_SIZE;
use crate::text::{decimal_length, put, put_decimal, put_number, put_text};
use crate::totals::Totals;
use codec::{Refusal, Written};

// No line of a record is longer: 20 digits, a letter between spaces, `refused 255` and the newline.
pub const LINE_LIMIT: usize = 35;

// The totals after some records were listed, and how many octets of the buffer are their lines.
#[derive(Clone, Copy)]
pub struct Listed {
    pub totals: Totals,
    pub length: usize,
}

// `i` to the tag, `t` from it, between spaces.
fn put_letter(out: &mut [u8], at: usize, direction: u8) -> usize
    requires { at + 3 ≤ length out.old }
    ensures { Put out.old at (letter direction) out.new result }
{
    if direction == 0 {
        return put_text(out, at, b" i ");
    }
    put_text(out, at, b" t ")
}

// A word and a number.
pub(crate) fn put_field(out: &mut [u8], at: usize, word: &[u8], n: u64) -> usize
    requires { at + length word.now + length (decimal n) ≤ length out.old }
    ensures { Put out.old at (word.now ++ decimal n) out.new result }
{
    let number = put_text(out, at, word);
    put_decimal(out, number, n)
}

// ID and set, or the refusal's number.
fn put_verdict(out: &mut [u8], at: usize, message: Result<Accepted, Refusal>) -> usize
    requires { at + 11 ≤ length out.old }
    ensures { Put out.old at (verdict message) out.new result × (result ≤ at + 11) }
{
    match message {
        Ok(accepted) => {
            let set = put_decimal(out, at, u64::from(accepted.id));
            put_field(out, set, b" ", u64::from(accepted.set))
        }
        Err(refusal) => put_field(out, at, b"refused ", u64::from(u8::from(refusal))),
    }
}

// What a line says after the number.
pub(crate) fn put_entry(out: &mut [u8], at: usize, e: Entry) -> usize
    requires { at + 15 ≤ length out.old }
    ensures { Put out.old at (entry_text e) out.new result × (result ≤ at + 15) }
{
    let verdict = put_letter(out, at, e.direction);
    let end = put_verdict(out, verdict, e.message);
    put(out, end, b'\n')
}

// The line of a record.
fn put_line(out: &mut [u8], at: usize, number: u64, e: Entry) -> usize
    requires { at + line_limit ≤ length out.old }
    ensures { Put out.old at (line number e) out.new result × (result ≤ at + line_limit) }
{
    let letter = put_number(out, at, number);
    put_entry(out, letter, e)
}

// Lists the whole records of a piece of a log that come after those counted before, as many as `out` has room for at the
// longest line each: their lines stand at its start, and every other octet is as it was.
pub fn list(piece: &[u8], before: Totals, out: &mut [u8]) -> Listed
    ensures { Lists piece.now before out.old result out.new }
{
    let count = (piece.len() / RECORD_SIZE).min(out.len() / LINE_LIMIT);
    let mut totals = before;
    let mut length = 0;
    for i in 0..count {
        let at = i * RECORD_SIZE;
        let e = entry_of(&piece[at..at + RECORD_SIZE]);
        length = put_line(out, length, totals.records, e);
        totals = totals.counted(e);
    }
    Listed { totals, length }
}

#[tactic(auto, using(crate::proofs::Lines::last_line_length))]
fn put_last_line(out: &mut [u8], totals: Totals, tail: u64) -> usize
    requires { length (last_line totals tail) ≤ length out.old }
    ensures { Put out.old 0 (last_line totals tail) out.new result }
{
    let accepted = put_field(out, 0, b"records ", totals.records);
    let refused = put_field(out, accepted, b" accepted ", totals.accepted);
    let partial = put_field(out, refused, b" refused ", totals.refused);
    let end = put_field(out, partial, b" tail ", tail);
    put(out, end, b'\n')
}

// Its words and the newline take 34 octets.
#[tactic(auto, using(crate::proofs::Lines::last_line_length))]
fn last_line_length(totals: Totals, tail: u64) -> usize
    ensures { result ≡ length (last_line totals tail) }
{
    34 + decimal_length(totals.records)
        + decimal_length(totals.accepted)
        + decimal_length(totals.refused)
        + decimal_length(tail)
}

// Lays out the last line of a listing, where a partial last record has `tail` octets.
pub fn last_line(totals: Totals, tail: u64, out: &mut [u8]) -> Written
    ensures { LaysOut (fitting (last_line totals tail) (length out.old)) out.old result out.new }
{
    if out.len() < last_line_length(totals, tail) {
        return Written {
            refusal: u8::from(Refusal::BufferTooShort),
            length: 0,
        };
    }
    let length = put_last_line(out, totals, tail);
    Written { refusal: 0, length }
}
