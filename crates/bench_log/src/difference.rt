// The line of a field that differs: a record's number, the field's name, and what either side has.
ghost use Rattle.std.specs.Prelude.{◌≡◌, ◌+◌, ◌*◌, ◌≤◌, [], ◌++◌, length};
ghost use Rattle.codec.specs.Inner.Puts.{Put};
ghost use Rattle.bench_log.specs.Text.{ascii, decimal};
ghost use Rattle.bench_log.specs.Fields.{amount, string, prefix};
ghost use Rattle.bench_log.specs.Comparison.{difference, difference_lines};
ghost use Rattle.bench_log.specs.Inner.Differences.{technology_by};

use crate::same::same;
use crate::text::{put, put_hexadecimal, put_number, put_text};
use codec::technology::{CS, NAN, UWB};

// What is before the names of a technology's fields.
fn prefix(id: u8) -> &'static [u8]
    ensures { result.now ≡ prefix (technology_by id) }
{
    match id {
        UWB => b"UWB ",
        CS => b"CS ",
        NAN => b"NAN ",
        _ => b"RSSI ",
    }
}

// What is before the name of a field: the number of the record, and the technology with a space after it, where there is one.
#[derive(Clone, Copy)]
pub(crate) struct Heading {
    pub number: u64,
    pub technology: &'static [u8],
}

impl Heading {
    // For the fields of a block.
    pub(crate) fn of_block(number: u64, id: u8) -> Heading
        ensures number { result.number ≡ number }
        ensures words { result.technology.now ≡ prefix (technology_by id) }
    {
        Heading {
            number,
            technology: prefix(id),
        }
    }

    // For the fields of no block.
    pub(crate) fn of_record(number: u64) -> Heading
        ensures { (result.number ≡ number) × (result.technology.now ≡ []) }
    {
        Heading {
            number,
            technology: b"",
        }
    }

    // The heading and a field's name.
    fn put_name(self, out: &mut [u8], at: usize, name: &[u8]) -> usize
        requires { at + 28 + length self.technology.now + length name.now ≤ length out.old }
        ensures text { Put out.old at (decimal self.number ++ (ascii " " ++ (self.technology.now ++ (name.now ++ ascii ": left ")))) out.new result }
        ensures limit { result ≤ at + 28 + length self.technology.now + length name.now }
    {
        let space = put_number(out, at, self.number);
        let first = put(out, space, b' ');
        let second = put_text(out, first, self.technology);
        let word = put_text(out, second, name);
        put_text(out, word, b": left ")
    }

    // The line of a number, if it differs.
    pub(crate) fn put_numbers(
        self,
        out: &mut [u8],
        at: usize,
        name: &[u8],
        left: u64,
        right: u64,
    ) -> usize
        requires { at + 77 + length self.technology.now + length name.now ≤ length out.old }
        ensures text { Put out.old at (difference_lines self.number (difference (self.technology.now ++ name.now) (amount left) (amount right))) out.new result }
        ensures limit { result ≤ at + 77 + length self.technology.now + length name.now }
    {
        if left == right {
            return at;
        }
        let first = self.put_name(out, at, name);
        let word = put_number(out, first, left);
        let second = put_text(out, word, b", right ");
        let end = put_number(out, second, right);
        put(out, end, b'\n')
    }

    // The line of octets, if they differ.
    pub(crate) fn put_strings(
        self,
        out: &mut [u8],
        at: usize,
        name: &[u8],
        left: &[u8],
        right: &[u8],
    ) -> usize
        requires { at + 37 + length self.technology.now + length name.now + 2 * length left.now + 2 * length right.now ≤ length out.old }
        ensures text { Put out.old at (difference_lines self.number (difference (self.technology.now ++ name.now) (string left.now) (string right.now))) out.new result }
        ensures limit { result ≤ at + 37 + length self.technology.now + length name.now + 2 * length left.now + 2 * length right.now }
    {
        if same(left, right) {
            return at;
        }
        let first = self.put_name(out, at, name);
        let word = put_hexadecimal(out, first, left);
        let second = put_text(out, word, b", right ");
        let end = put_hexadecimal(out, second, right);
        put(out, end, b'\n')
    }
}
