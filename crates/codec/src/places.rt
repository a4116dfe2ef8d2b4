// Reading at any place of a message, as if a block began there: its fields, or zero where the message ends before them, or where a key or
// name is longer than its array.
ghost use Rattle.std.specs.Prelude.{◌≡◌};
ghost use Rattle.codec.specs.Inner.Places.{fields_at};

use crate::fields::Fields;

// The place of a block that is absent, past the end of every message.
pub(crate) const NO_PLACE: u16 = 65535;

// The fields of a block at a place.
pub fn fields_at<F: Fields>(m: &[u8], at: u32) -> F
    ensures { result ≡ F.made (fields_at F.layout m.now at) }
{
    if !F::has_room(m, at) {
        return F::zero();
    }
    F::read(&m[at as usize..])
}
