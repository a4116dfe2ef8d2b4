// Text put into a lent buffer, one piece after another. Each function returns the place after what it wrote.
ghost use Rattle.std.specs.Prelude.{◌≡◌, ◌+◌, ◌*◌, ◌<◌, ◌≤◌, [], ◌∷◌, length};
ghost use Rattle.codec.specs.Inner.Puts.{Put};
ghost use Rattle.bench_log.specs.Text.{decimal, hex_digit, hexadecimal};

#[tactic(auto, using(codec::proofs::Puts::put_one))]
pub(crate) fn put(out: &mut [u8], at: usize, x: u8) -> usize
    requires { at < length out.old }
    ensures { Put out.old at (x ∷ []) out.new result }
{
    out[at] = x;
    at + 1
}

#[tactic(auto, using(codec::proofs::Puts::put_part))]
pub(crate) fn put_text(out: &mut [u8], at: usize, text: &[u8]) -> usize
    requires { at + length text.now ≤ length out.old }
    ensures { Put out.old at text.now out.new result }
{
    let end = at + text.len();
    out[at..end].copy_from_slice(text);
    end
}

// A number in decimal, without leading zeros.
pub(crate) fn put_decimal(out: &mut [u8], at: usize, n: u64) -> usize
    requires { at + length (decimal n) ≤ length out.old }
    ensures { Put out.old at (decimal n) out.new result }
{
    if n < 10 {
        return put(out, at, b'0' + n as u8);
    }
    let last = put_decimal(out, at, n / 10);
    put(out, last, b'0' + (n % 10) as u8)
}

// The same, where there is room for the longest number.
pub(crate) fn put_number(out: &mut [u8], at: usize, n: u64) -> usize
    requires { at + 20 ≤ length out.old }
    ensures { Put out.old at (decimal n) out.new result × (result ≤ at + 20) }
{
    put_decimal(out, at, n)
}

fn hex_digit(n: u8) -> u8
    requires { n < 16 }
    ensures { result ≡ hex_digit n }
{
    if n < 10 { b'0' + n } else { 55 + n }
}

// An octet in hexadecimal, the higher digit first.
fn put_octet(out: &mut [u8], at: usize, x: u8) -> usize
    requires { at + 2 ≤ length out.old }
    ensures { Put out.old at (hexadecimal (x ∷ [])) out.new result }
{
    let low = put(out, at, hex_digit(x / 16));
    put(out, low, hex_digit(x % 16))
}

// Octets in hexadecimal.
pub(crate) fn put_hexadecimal(out: &mut [u8], at: usize, octets: &[u8]) -> usize
    requires { at + 2 * length octets.now ≤ length out.old }
    ensures { Put out.old at (hexadecimal octets.now) out.new result × (result ≡ at + 2 * length octets.now) }
{
    let mut next = at;
    for octet in octets {
        next = put_octet(out, next, *octet);
    }
    next
}

// How many octets a number takes in decimal.
pub(crate) fn decimal_length(n: u64) -> usize
    ensures { (result ≡ length (decimal n)) × (result ≤ 20) }
{
    if n < 10 {
        return 1;
    }
    decimal_length(n / 10) + 1
}
