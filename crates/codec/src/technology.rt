// Technologies by their IDs, and sets of them: a 16-bit number with bit n for ID n.
ghost use Rattle.std.specs.Prelude.{◌≡◌, ◌&&◌, not, cond, [], ◌∷◌, ℕ, ◌<◌, ◌≤◌, leb};
ghost use Rattle.codec.specs.Technology.{bit, of_bits, naming, in_both};
ghost use Rattle.codec.specs.Message.{also};

pub const UWB: u8 = 0;

pub const CS: u8 = 1;

pub const NAN: u8 = 2;

pub const RSSI: u8 = 3;

// IDs from here on are reserved, and a set without reserved bits is below the limit.
pub const RESERVED: u8 = 4;

pub const SET_LIMIT: u16 = 16;

// The set of all of them.
pub const ALL: u16 = 15;

// Whether a set has the bit of an ID.
pub fn has(set: u16, id: u8) -> bool
    ensures { result ≡ bit set id }
{
    if id < 16 {
        return (set >> id) % 2 == 1;
    }
    false
}

// Whether a number has bit n, which then is at most 31.
pub fn has_bit(bits: u32, n: u8) -> bool
    ensures { (result ≡ bit bits n) × (result ≡ (leb n 31 && bit bits n)) }
{
    if n < 32 {
        return (bits >> n) % 2 == 1;
    }
    false
}

// The IDs of a set that are not among those met, in 32 bits: machine code extends a 16-bit number anew for each test.
pub(crate) fn unmet(set: u16, met: u16) -> u32
    ensures { (id : ℕ) → bit result id ≡ (bit set id && not (bit met id)) }
{
    (set as u32) & !(met as u32)
}

// The IDs met and one more.
pub(crate) fn also_met(met: u16, new: u8) -> u16
    requires { new < 16 }
    ensures { (id : ℕ) → bit result id ≡ also new (bit met) id }
{
    met | (1 << new)
}

// A set, or none.
pub fn set_if(on: bool, set: u16) -> u16
    ensures { (result ≡ cond on set 0) × (result ≤ set) }
{
    if on { set } else { 0 }
}

// The set of the technologies whose value is true.
pub fn set_naming(uwb: bool, cs: bool, nan: bool, rssi: bool) -> u16
    ensures { result ≡ of_bits (uwb ∷ cs ∷ nan ∷ rssi ∷ []) }
{
    set_if(uwb, 1) + (set_if(cs, 2) + (set_if(nan, 4) + set_if(rssi, 8)))
}

// Whether two sets both have the bit of an ID.
pub fn both_have(a: u16, b: u16, id: u8) -> bool
    ensures { result ≡ (bit a id && bit b id) }
{
    has(a, id) & has(b, id)
}

// The technologies in both of two sets.
pub fn common(a: u16, b: u16) -> u16
    ensures { result ≡ naming (in_both a b) }
{
    let uwb = both_have(a, b, UWB);
    let cs = both_have(a, b, CS);
    let nan = both_have(a, b, NAN);
    set_naming(uwb, cs, nan, both_have(a, b, RSSI))
}
