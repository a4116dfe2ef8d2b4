// The comparison of two logs by position, laid out in a lent buffer: pairs of records, records that only one log has, and the last line.
ghost use Rattle.std.specs.Prelude.{◌≡◌, ℕ, ◌+◌, ◌*◌, ◌≤◌, List, ◌++◌, map, length};
ghost use Rattle.codec.specs.Inner.Puts.{Put};
ghost use Rattle.codec.specs.Writing.{fitting, LaysOut};
ghost use Rattle.bench_log.specs.Text.{decimal};
ghost use Rattle.bench_log.specs.Listing.{entry_text};
ghost use Rattle.bench_log.specs.LogRecord.{record_size, records_in};
ghost use Rattle.bench_log.specs.Comparison.{positions, kind_of, pairs_text, rest_text, sum_line, next_lines, next_kinds, position_limit, Compares};
ghost use Rattle.bench_log.specs.Inner.Items.{SoFar};
ghost use Rattle.bench_log.specs.Inner.Pairs.{only_on, side_text};

use crate::entry::{Entry, entry_of};
use crate::kinds::{Kind, Kinds};
use crate::layout::RECORD_SIZE;
use crate::listing::{put_entry, put_field};
use crate::pair::put_pair;
use crate::text::{decimal_length, put, put_number, put_text};
use codec::{Refusal, Written};

// The lines of no position take more octets: those of all fields of two Configurations, with the longest numbers, keys and names.
pub const POSITION_LIMIT: usize = 2560;

// The counters after some positions were told, and how many octets of the buffer are their lines.
#[derive(Clone, Copy)]
pub struct Compared {
    pub kinds: Kinds,
    pub length: usize,
}

// The lines of pairs of records, so many from the start of two pieces, at the start of the buffer.
fn tell_pairs(out: &mut [u8], before: Kinds, left: &[u8], right: &[u8], count: usize) -> Compared
    requires { (count * record_size ≤ length left.now) × (count * record_size ≤ length right.now) × (count * position_limit ≤ length out.old) }
    ensures { SoFar next_lines next_kinds (positions (records_in count left.now) (records_in count right.now)) before out.old 0 result.kinds out.new result.length
        × (result.length ≤ count * position_limit) }
{
    let mut kinds = before;
    let mut length = 0;
    for i in 0..count {
        let at = i * RECORD_SIZE;
        let end = at + RECORD_SIZE;
        let said = put_pair(
            out,
            length,
            kinds.positions,
            &left[at..end],
            &right[at..end],
        );
        length = said.end;
        kinds = kinds.counted(said.kind);
    }
    Compared { kinds, length }
}

// Of a record that only one log has: which of the two.
#[derive(Clone, Copy, Debug, PartialEq, Eq)]
enum Side {
    Left,
    Right,
}

impl Side {
    // The kind of a position of which only this side has a record.
    fn kind(self) -> Kind
        ensures { (r : List ℕ) → result ≡ kind_of (only_on self r) }
    {
        match self {
            Side::Left => Kind::OnlyLeft,
            Side::Right => Kind::OnlyRight,
        }
    }

    // The words of its line.
    fn words(self) -> &'static [u8]
        ensures { (result.now ≡ side_text self) × (length result.now ≤ 12) }
    {
        match self {
            Side::Left => b" only left:",
            Side::Right => b" only right:",
        }
    }
}

// The line of a record that only one log has.
fn put_only(out: &mut [u8], at: usize, number: u64, side: Side, e: Entry) -> usize
    requires { at + 47 ≤ length out.old }
    ensures { Put out.old at (decimal number ++ (side_text side ++ entry_text e)) out.new result × (result ≤ at + 47) }
{
    let words = put_number(out, at, number);
    let entry = put_text(out, words, side.words());
    put_entry(out, entry, e)
}

// The lines of records that only one log has, so many from the start of a piece, after what was told before.
fn tell_only(out: &mut [u8], told: Compared, side: Side, piece: &[u8], count: usize) -> Compared
    requires { (count * record_size ≤ length piece.now) × (told.length + count * position_limit ≤ length out.old) }
    ensures { SoFar next_lines next_kinds (map (only_on side) (records_in count piece.now)) told.kinds out.old told.length result.kinds out.new result.length
        × (result.length ≤ told.length + count * position_limit) }
{
    let kind = side.kind();
    let mut kinds = told.kinds;
    let mut length = told.length;
    for i in 0..count {
        let at = i * RECORD_SIZE;
        let e = entry_of(&piece[at..at + RECORD_SIZE]);
        length = put_only(out, length, kinds.positions, side, e);
        kinds = kinds.counted(kind);
    }
    Compared { kinds, length }
}

// Compares the whole records of two pieces that come after the positions counted before, as many of each as `out` has room for at the
// longest lines: first the pairs, and then the records that only one piece has. Their lines stand at its start, and every other octet is
// as it was.
pub fn compare(left: &[u8], right: &[u8], before: Kinds, out: &mut [u8]) -> Compared
    ensures { Compares left.now right.now before out.old result out.new }
{
    let room = out.len() / POSITION_LIMIT;
    let a = (left.len() / RECORD_SIZE).min(room);
    let b = (right.len() / RECORD_SIZE).min(room);
    let pairs = a.min(b);
    let from = pairs * RECORD_SIZE;
    let paired = tell_pairs(out, before, left, right, pairs);
    let told = tell_only(out, paired, Side::Left, &left[from..], a - pairs);
    tell_only(out, told, Side::Right, &right[from..], b - pairs)
}

// What the last line says of the pairs.
#[tactic(auto, using(crate::proofs::Positions::pairs_text_length))]
fn put_pairs(out: &mut [u8], kinds: Kinds) -> usize
    requires { length (pairs_text kinds) ≤ length out.old }
    ensures { Put out.old 0 (pairs_text kinds) out.new result }
{
    let octets = put_field(out, 0, b"pairs ", kinds.pairs);
    let reading = put_field(out, octets, b" same octets ", kinds.same_octets);
    let different = put_field(out, reading, b" same reading ", kinds.same_reading);
    put_field(out, different, b" different ", kinds.different)
}

// And of the rest.
#[tactic(auto, using(crate::proofs::Positions::rest_text_length))]
fn put_rest(out: &mut [u8], at: usize, kinds: Kinds, left: u64, right: u64) -> usize
    requires { at + length (rest_text kinds left right) ≤ length out.old }
    ensures { Put out.old at (rest_text kinds left right) out.new result }
{
    let only_right = put_field(out, at, b" only left ", kinds.only_left);
    let left_tail = put_field(out, only_right, b" only right ", kinds.only_right);
    let right_tail = put_field(out, left_tail, b" left tail ", left);
    let end = put_field(out, right_tail, b" right tail ", right);
    put(out, end, b'\n')
}

// The words take 44 octets.
#[tactic(auto, using(crate::proofs::Positions::pairs_text_length))]
fn pairs_length(kinds: Kinds) -> usize
    ensures { (result ≡ length (pairs_text kinds)) × (result ≤ 124) }
{
    44 + decimal_length(kinds.pairs)
        + decimal_length(kinds.same_octets)
        + decimal_length(kinds.same_reading)
        + decimal_length(kinds.different)
}

// The words and the newline take 47 octets.
#[tactic(auto, using(crate::proofs::Positions::rest_text_length))]
fn rest_length(kinds: Kinds, left: u64, right: u64) -> usize
    ensures { (result ≡ length (rest_text kinds left right)) × (result ≤ 127) }
{
    47 + decimal_length(kinds.only_left)
        + decimal_length(kinds.only_right)
        + decimal_length(left)
        + decimal_length(right)
}

// Lays out the last line of a comparison, where partial last records have `left` and `right` octets.
pub fn sum_line(kinds: Kinds, left: u64, right: u64, out: &mut [u8]) -> Written
    ensures { LaysOut (fitting (sum_line kinds left right) (length out.old)) out.old result out.new }
{
    if out.len() < pairs_length(kinds) + rest_length(kinds, left, right) {
        return Written {
            refusal: u8::from(Refusal::BufferTooShort),
            length: 0,
        };
    }
    let rest = put_pairs(out, kinds);
    let length = put_rest(out, rest, kinds, left, right);
    Written { refusal: 0, length }
}
