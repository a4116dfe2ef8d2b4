// What is said of a pair of log records.
ghost use Rattle.std.specs.Prelude.{◌≡◌, ◌+◌, ◌≤◌, ◌++◌, length};
ghost use Rattle.codec.specs.Octets.{Octets};
ghost use Rattle.codec.specs.Inner.Puts.{Put};
ghost use Rattle.bench_log.specs.Text.{decimal};
ghost use Rattle.bench_log.specs.Comparison.{shown, difference_lines, pair_lines, pair_kind, position_limit};
ghost use Rattle.bench_log.specs.Inner.Pairs.{Finds, Sees, refusal_in, head_differences};

use crate::difference::Heading;
use crate::found::Found;
use crate::kinds::Kind;
use crate::layout::take_apart;
use crate::messages::put_messages;
use crate::same::same;
use crate::text::{put_number, put_text};
use codec::{MESSAGE_LIMIT, Refusal};

// What is seen of a record: its direction, and its message.
#[derive(Clone, Copy)]
pub(crate) struct Seen<'a> {
    direction: u8,
    message: Result<Found<'a>, Refusal>,
}

// What is found of a message.
fn find(message: &[u8]) -> Result<Found<'_>, Refusal>
    ensures { Finds message.now result }
{
    let places = codec::find(message)?;
    Ok(Found::new(message, places))
}

impl<'a> Seen<'a> {
    fn of(octets: &'a [u8]) -> Seen<'a>
        ensures { Sees octets.now result }
    {
        match take_apart(octets, MESSAGE_LIMIT) {
            Err(refusal) => Seen {
                direction: 0,
                message: Err(refusal),
            },
            Ok(parts) => Seen {
                direction: parts.direction,
                message: find(&octets[4..4 + parts.length]),
            },
        }
    }

    // The number of the refusal, or 0.
    fn refusal(&self) -> u8
        ensures { result ≡ refusal_in self.now.message }
    {
        match self.message {
            Ok(_) => 0,
            Err(refusal) => u8::from(refusal),
        }
    }
}

// The place after the lines of a pair, and its kind.
#[derive(Clone, Copy)]
pub(crate) struct Said {
    pub end: usize,
    pub kind: Kind,
}

// The lines of the directions and the refusal numbers.
fn put_heads(out: &mut [u8], at: usize, number: u64, left: &Seen, right: &Seen) -> usize
    requires { at + 177 ≤ length out.old }
    ensures { Put out.old at (difference_lines number (head_differences left.now.direction right.now.direction (refusal_in left.now.message) (refusal_in right.now.message))) out.new result
        × (result ≤ at + 177) }
{
    let heading = Heading::of_record(number);
    let next = heading.put_numbers(
        out,
        at,
        b"direction",
        u64::from(left.direction),
        u64::from(right.direction),
    );
    heading.put_numbers(
        out,
        next,
        b"refusal number",
        u64::from(left.refusal()),
        u64::from(right.refusal()),
    )
}

// The lines of the fields that both have and that differ.
fn put_differences(out: &mut [u8], at: usize, number: u64, left: &[u8], right: &[u8]) -> usize
    requires { at + 2481 ≤ length out.old }
    ensures { (Octets left.now × Octets right.now)
        × (Put out.old at (difference_lines number (shown left.now right.now)) out.new result × (result ≤ at + 2481)) }
{
    let l = Seen::of(left);
    let r = Seen::of(right);
    let next = put_heads(out, at, number, &l, &r);
    let Ok(x) = &l.message else {
        return next;
    };
    let Ok(y) = &r.message else {
        return next;
    };
    put_messages(out, next, number, x, y)
}

// A record's number, and words.
fn put_words(out: &mut [u8], at: usize, number: u64, words: &[u8]) -> usize
    requires { at + 20 + length words.now ≤ length out.old }
    ensures { Put out.old at (decimal number ++ words.now) out.new result × (result ≤ at + 20 + length words.now) }
{
    let next = put_number(out, at, number);
    put_text(out, next, words)
}

// The lines of a pair.
pub(crate) fn put_pair(out: &mut [u8], at: usize, number: u64, left: &[u8], right: &[u8]) -> Said
    requires { at + position_limit ≤ length out.old }
    ensures { Put out.old at (pair_lines number left.now right.now) out.new result.end
        × (result.end ≤ at + position_limit) × (result.kind ≡ pair_kind left.now right.now) }
{
    if same(left, right) {
        let end = put_words(out, at, number, b" same octets\n");
        return Said {
            end,
            kind: Kind::SameOctets,
        };
    }
    let next = put_differences(out, at, number, left, right);
    if next == at {
        let end = put_words(out, at, number, b" same reading\n");
        return Said {
            end,
            kind: Kind::SameReading,
        };
    }
    Said {
        end: next,
        kind: Kind::Different,
    }
}
