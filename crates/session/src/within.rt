// The bits of a profile. Channel, preamble index and config ID each have their own bit rule, and so have roles.
ghost use Rattle.std.specs.Prelude.{◌≡◌};
ghost use Rattle.session.specs.Within.{has_config_id, has_channel, has_preamble_index, has_role};

use codec::{Channel, Channels, ConfigId, ConfigIds, PreambleIndex, PreambleIndexes};

pub(crate) fn has_config_id(ids: ConfigIds, id: ConfigId) -> bool
    ensures { result ≡ has_config_id ids id }
{
    codec::has_bit(ids.0, id.0)
}

pub(crate) fn has_channel(channels: Channels, channel: Channel) -> bool
    ensures { result ≡ has_channel channels channel }
{
    codec::has_bit(channels.0, channel.0)
}

pub(crate) fn has_preamble_index(indexes: PreambleIndexes, index: PreambleIndex) -> bool
    ensures { result ≡ has_preamble_index indexes index }
{
    match index.0.checked_sub(1) {
        Some(n) => codec::has_bit(indexes.0, n),
        None => false,
    }
}

// Role 1 has the first bit and role 2 the second.
pub(crate) fn has_role(roles: u8, role: u8) -> bool
    ensures { result ≡ has_role roles role }
{
    match role {
        1 => codec::has(u16::from(roles), 0),
        2 => codec::has(u16::from(roles), 1),
        _ => false,
    }
}
