// Validity of what a record holds.
ghost use Rattle.std.specs.Prelude.{◌≡◌};
ghost use Rattle.codec.specs.Records.{response, only};
ghost use Rattle.codec.specs.Valid.{valid_fields, valid_column, valid};
ghost use Rattle.codec.specs.Inner.Puts.{rest_zero};

use crate::columns::Column;
use crate::fields::Fields;
use crate::records::Capability;
use crate::technology::{CS, NAN, RSSI, SET_LIMIT, UWB, has};

// Whether the fields of a block are valid: allowed where the technology is present, and else zero.
fn valid_block<F: Fields>(present: bool, block: &F) -> bool
    ensures { result ≡ valid_fields F.layout present (F.values block.now) }
{
    if present {
        return block.is_allowed();
    }
    block.is_zero()
}

// Whether the fields of the technologies in a set are allowed, and all others zero.
pub(crate) fn valid_column<C: Column>(set: u16, c: &C) -> bool
    ensures { result ≡ valid_column C.column set (C.kept c.now) }
{
    let uwb = valid_block(has(set, UWB), c.uwb());
    let cs = valid_block(has(set, CS), c.cs());
    let nan = valid_block(has(set, NAN), c.nan());
    let rssi = valid_block(has(set, RSSI), c.rssi());
    uwb & (cs & (nan & rssi))
}

// Whether all fields are zero.
pub fn is_zero<C: Column>(c: &C) -> bool
    ensures { result ≡ valid_column C.column 0 (C.kept c.now) }
{
    c.uwb().is_zero() & (c.cs().is_zero() & (c.nan().is_zero() & c.rssi().is_zero()))
}

// Whether a Capability Response with these blocks is valid.
pub fn valid_response(set: u16, c: &Capability) -> bool
    ensures { result ≡ valid (response set c.now) }
{
    (set < SET_LIMIT) & valid_column(set, c)
}

// Whether a Capability Response with those of these blocks that the set names is valid.
pub(crate) fn valid_only(set: u16, c: &Capability) -> bool
    ensures { result ≡ valid (response set (only set c.now)) }
{
    let uwb = !has(set, UWB) | c.uwb.is_allowed();
    let nan = !has(set, NAN) | c.nan.is_allowed();
    (set < SET_LIMIT) & (uwb & nan)
}

// Whether the fields of the technologies that a set leaves out are zero.
pub(crate) fn rest_zero(set: u16, c: &Capability) -> bool
    ensures { result ≡ rest_zero set c.now }
{
    let uwb = has(set, UWB) | c.uwb.is_zero();
    let cs = has(set, CS) | c.cs.is_zero();
    let nan = has(set, NAN) | c.nan.is_zero();
    let rssi = has(set, RSSI) | c.rssi.is_zero();
    uwb & (cs & (nan & rssi))
}
