// Numbers and octets at a place of a slice: read, and written.
ghost use Rattle.std.specs.Prelude.{◌≡◌, [], ◌∷◌, ◌++◌, ◌+◌, ◌-◌, ◌*◌, ◌≤◌, ◌<◌, length, take, drop, replicate};
ghost use Rattle.codec.specs.Octets.{all_zero, part, of_le, to_le};
ghost use Rattle.codec.specs.Layout.{inside};
ghost use Rattle.codec.specs.Inner.Puts.{Put};

#[tactic(auto, unfolding(crate::specs::Layout::inside))]
pub(crate) fn inside(low: u8, high: u8, x: u8) -> bool
    ensures { result ≡ inside low high x }
{
    (low <= x) & (x <= high)
}

// The number of two octets.
#[tactic(auto, using(crate::proofs::Laws::two_at))]
pub(crate) fn u16_at(s: &[u8], at: usize) -> u16
    requires { at + 2 ≤ length s.now }
    ensures { result ≡ of_le 2 at s.now }
{
    u16::from_le_bytes(octets_at(s, at))
}

// The number of four octets.
#[tactic(auto, using(crate::proofs::Laws::four_at))]
pub(crate) fn u32_at(s: &[u8], at: usize) -> u32
    requires { at + 4 ≤ length s.now }
    ensures { result ≡ of_le 4 at s.now }
{
    u32::from_le_bytes(octets_at(s, at))
}

// N octets: an address, a country.
pub(crate) fn octets_at<const N: usize>(s: &[u8], at: usize) -> [u8; N]
    requires { at + N ≤ length s.now }
    ensures { result ≡ part at N s.now }
{
    let mut out = [0u8; N];
    out.copy_from_slice(&s[at..at + N]);
    out
}

// n octets of a key or a name, in an array of N, with zeros past them.
pub(crate) fn padded_at<const N: usize>(s: &[u8], at: usize, n: usize) -> [u8; N]
    requires { (at + n ≤ length s.now) × (n ≤ N) }
    ensures { result ≡ part at n s.now ++ replicate (N - n) 0 }
{
    let mut out = [0u8; N];
    out[..n].copy_from_slice(&s[at..at + n]);
    out
}

// Whether all octets are zero: four at a time, as one number, then two, then one. It looks at every one, so that the machine
// code of short arrays takes no single octets.
pub fn all_zero(s: &[u8]) -> bool
    ensures { result ≡ all_zero s.now }
{
    let (fours, rest) = s.as_chunks::<4>();
    let (twos, last) = rest.as_chunks::<2>();
    let first = fours
        .iter()
        .fold(0, |any, four| any | u32::from_le_bytes(*four));
    let second = twos
        .iter()
        .fold(0, |any, two| any | u16::from_le_bytes(*two));
    (first == 0) & ((second == 0) & (last.iter().fold(0, |any, octet| any | *octet) == 0))
}

// Whether all octets from a place on are zero: those past a key or a name.
pub(crate) fn zero_from(s: &[u8], from: usize) -> bool
    requires { from ≤ length s.now }
    ensures { result ≡ all_zero (drop from s.now) }
{
    all_zero(&s[from..])
}

// One octet. Each of these returns the place after what it wrote.
pub(crate) fn put(out: &mut [u8], at: usize, x: u8) -> usize
    requires { at < length out.old }
    ensures { Put out.old at (x ∷ []) out.new result }
{
    out[at] = x;
    at + 1
}

// All octets of a slice.
fn put_all(out: &mut [u8], at: usize, s: &[u8]) -> usize
    requires { at + length s.now ≤ length out.old }
    ensures { Put out.old at s.now out.new result }
{
    let end = at + s.len();
    out[at..end].copy_from_slice(s);
    end
}

// The two octets of a number.
#[tactic(auto, using(crate::proofs::Laws::two_of))]
pub(crate) fn put_u16(out: &mut [u8], at: usize, x: u16) -> usize
    requires { at + 2 ≤ length out.old }
    ensures { Put out.old at (to_le 2 x) out.new result }
{
    put_all(out, at, &x.to_le_bytes())
}

// The four octets of a number.
#[tactic(auto, using(crate::proofs::Laws::four_of))]
pub(crate) fn put_u32(out: &mut [u8], at: usize, x: u32) -> usize
    requires { at + 4 ≤ length out.old }
    ensures { Put out.old at (to_le 4 x) out.new result }
{
    put_all(out, at, &x.to_le_bytes())
}

// The octets of an array: an address, a country.
pub(crate) fn put_octets<const N: usize>(out: &mut [u8], at: usize, octets: &[u8; N]) -> usize
    requires { at + N ≤ length out.old }
    ensures { Put out.old at octets.now out.new result × (length octets.now ≡ N) }
{
    put_all(out, at, octets)
}

// The first n octets of an array: of a key, a name.
pub(crate) fn put_first<const N: usize>(
    out: &mut [u8],
    at: usize,
    octets: &[u8; N],
    n: usize,
) -> usize
    requires { (n ≤ N) × (at + n ≤ length out.old) }
    ensures { Put out.old at (take n octets.now) out.new result × (length (take n octets.now) ≡ n) }
{
    put_all(out, at, &octets[..n])
}
