// The messages by their IDs; 4, 5 and 8 to 255 are reserved.
ghost use Rattle.std.specs.Prelude.{◌≡◌};
ghost use Rattle.codec.specs.Table.{assigned};

pub const CAPABILITY_REQUEST: u8 = 0;

pub const CAPABILITY_RESPONSE: u8 = 1;

pub const CONFIGURATION: u8 = 2;

pub const CONFIGURATION_RESPONSE: u8 = 3;

pub const STOP: u8 = 6;

pub const STOP_RESPONSE: u8 = 7;

// Whether an ID is that of a message, and not reserved.
pub(crate) fn assigned(id: u8) -> bool
    ensures { result ≡ assigned id }
{
    match id {
        0..=3 | 6..=7 => true,
        4..=5 | 8..=255 => false,
    }
}
