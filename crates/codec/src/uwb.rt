// UWB: its two blocks. Channel, preamble index and config ID are kinds of their own, and so are sets of them.
ghost use Rattle.std.specs.Prelude.{◌≡◌, refl, ◌+◌, ◌≤◌, length, get_or};
ghost use Rattle.codec.specs.Layout.{country, two_letters, spelled, inside, test, write, fault};
ghost use Rattle.codec.specs.Blocks.{interval, allowed_key_length, uwb_capability, uwb_configuration, uwb_after_key};
ghost use Rattle.codec.specs.Records.{to_uwb_capability, to_uwb_configuration, of_uwb_capability, of_uwb_configuration};
ghost use Rattle.codec.specs.Inner.Puts.{Put, set_octets, before_key, after_key};

use crate::fields::Fields;
use crate::octets::{
    all_zero, inside, octets_at, padded_at, put, put_first, put_octets, put_u16, put_u32, u16_at,
    u32_at, zero_from,
};
use crate::refusal::Refusal;

#[repr(C)]
#[derive(Clone, Copy)]
pub struct Channel(pub u8);

#[repr(C)]
#[derive(Clone, Copy)]
pub struct PreambleIndex(pub u8);

#[repr(C)]
#[derive(Clone, Copy)]
pub struct ConfigId(pub u8);

// Bit n for channel n.
#[repr(C)]
#[derive(Clone, Copy)]
pub struct Channels(pub u32);

// Bit n for preamble index n + 1.
#[repr(C)]
#[derive(Clone, Copy)]
pub struct PreambleIndexes(pub u32);

// Bit n for config ID n.
#[repr(C)]
#[derive(Clone, Copy)]
pub struct ConfigIds(pub u32);

// Intervals and slots are in ms.
#[repr(C)]
#[derive(Clone, Copy)]
pub struct UwbCapability {
    pub address: [u8; 2],
    pub channels: Channels,
    pub preamble_indexes: PreambleIndexes,
    pub config_ids: ConfigIds,
    pub shortest_interval: u16,
    pub shortest_slot: u8,
    pub roles: u8,
}

#[repr(C)]
#[derive(Clone, Copy)]
pub struct UwbConfiguration {
    pub address: [u8; 2],
    pub session_id: u32,
    pub config_id: ConfigId,
    pub channel: Channel,
    pub preamble_index: PreambleIndex,
    pub interval: u16,
    pub slot: u8,
    pub key_length: u8,
    pub key: [u8; 32],
    pub country: [u8; 2],
    pub role: u8,
    pub mode: u8,
}

#[tactic(auto, unfolding(crate::specs::Layout::member))]
fn allowed_interval(x: u16) -> bool
    ensures { result ≡ test interval x }
{
    (x == 96) | (x == 120) | (x == 240) | (x == 600)
}

#[tactic(auto, unfolding(crate::specs::Layout::member))]
fn allowed_key_length(x: u8) -> bool
    ensures { result ≡ test allowed_key_length x }
{
    (x == 8) | (x == 16) | (x == 32)
}

#[tactic(auto, unfolding(crate::specs::Layout::two_letters))]
fn two_letters(pair: [u8; 2]) -> bool
    ensures { result ≡ two_letters (get_or pair 0 0) (get_or pair 1 0) }
{
    inside(b'A', b'Z', pair[0]) & inside(b'A', b'Z', pair[1])
}

// 00 stands for a country that is not known.
#[tactic(auto, unfolding(crate::specs::Layout::unknown_country))]
fn allowed_country(pair: [u8; 2]) -> bool
    ensures { result ≡ spelled country pair }
{
    two_letters(pair) | ((pair[0] == b'0') & (pair[1] == b'0'))
}

// The fields after the key, from the country on.
fn after_key_fault(b: &[u8], at: usize) -> Result<(), Refusal>
    requires { at + 4 ≤ length b.now }
    ensures { result ≡ fault uwb_after_key at b.now }
{
    let role = at + 2;
    let mode = role + 1;
    if !allowed_country(octets_at(b, at)) {
        return Err(Refusal::NotAllowed);
    }
    if !inside(1, 2, b[role]) {
        return Err(Refusal::NotAllowed);
    }
    if !inside(1, 2, b[mode]) {
        return Err(Refusal::NotAllowed);
    }
    Ok(())
}

// Writes the sets of channels, preamble indexes and config IDs.
fn put_sets(v: &UwbCapability, out: &mut [u8], at: usize) -> usize
    requires { at + 12 ≤ length out.old }
    ensures { Put out.old at (set_octets v.now) out.new result }
{
    let preamble_indexes = put_u32(out, at, v.channels.0);
    let config_ids = put_u32(out, preamble_indexes, v.preamble_indexes.0);
    put_u32(out, config_ids, v.config_ids.0)
}

// Writes the fields after the address and before the key.
fn put_before_key(v: &UwbConfiguration, out: &mut [u8], at: usize) -> usize
    requires { at + 10 ≤ length out.old }
    ensures { Put out.old at (before_key v.now) out.new result }
{
    let config_id = put_u32(out, at, v.session_id);
    let channel = put(out, config_id, v.config_id.0);
    let preamble_index = put(out, channel, v.channel.0);
    let interval = put(out, preamble_index, v.preamble_index.0);
    let slot = put_u16(out, interval, v.interval);
    put(out, slot, v.slot)
}

// Writes the fields after the key.
fn put_after_key(v: &UwbConfiguration, out: &mut [u8], at: usize) -> usize
    requires { at + 4 ≤ length out.old }
    ensures { Put out.old at (write uwb_after_key (after_key v.now)) out.new result × (length v.now.country ≡ 2) }
{
    let role = put_octets(out, at, &v.country);
    let mode = put(out, role, v.role);
    put(out, mode, v.mode)
}

impl Fields for UwbCapability {
    ghost layout = { uwb_capability };

    ghost made = { to_uwb_capability };

    ghost values = { of_uwb_capability };

    ghost keeps = { λ v. refl };

    fn zero() -> UwbCapability {
        UwbCapability {
            address: [0; 2],
            channels: Channels(0),
            preamble_indexes: PreambleIndexes(0),
            config_ids: ConfigIds(0),
            shortest_interval: 0,
            shortest_slot: 0,
            roles: 0,
        }
    }

    fn least() -> u8 {
        20
    }

    fn fault(b: &[u8]) -> Result<(), Refusal> {
        if !allowed_interval(u16_at(b, 16)) {
            return Err(Refusal::NotAllowed);
        }
        if !inside(1, 2, b[18]) {
            return Err(Refusal::NotAllowed);
        }
        Ok(())
    }

    fn has_room(m: &[u8], at: u32) -> bool {
        at as usize + 20 <= m.len()
    }

    fn read(b: &[u8]) -> UwbCapability {
        let address = octets_at(b, 2);
        UwbCapability {
            address,
            channels: Channels(u32_at(b, 4)),
            preamble_indexes: PreambleIndexes(u32_at(b, 8)),
            config_ids: ConfigIds(u32_at(b, 12)),
            shortest_interval: u16_at(b, 16),
            shortest_slot: b[18],
            roles: b[19],
        }
    }

    fn is_allowed(&self) -> bool {
        allowed_interval(self.shortest_interval) & inside(1, 2, self.shortest_slot)
    }

    fn is_zero(&self) -> bool {
        let numbers = (self.shortest_interval == 0)
            & ((self.shortest_slot == 0) & (self.roles == 0));
        all_zero(&self.address)
            & ((self.channels.0 == 0)
                & ((self.preamble_indexes.0 == 0) & ((self.config_ids.0 == 0) & numbers)))
    }

    fn size(&self) -> u8 {
        20
    }

    fn put_fields(&self, out: &mut [u8], at: usize) -> usize {
        let channels = put_octets(out, at, &self.address);
        let interval = put_sets(self, out, channels);
        let slot = put_u16(out, interval, self.shortest_interval);
        let roles = put(out, slot, self.shortest_slot);
        put(out, roles, self.roles)
    }
}

impl Fields for UwbConfiguration {
    ghost layout = { uwb_configuration };

    ghost made = { to_uwb_configuration };

    ghost values = { of_uwb_configuration };

    ghost keeps = { λ v. refl };

    fn zero() -> UwbConfiguration {
        UwbConfiguration {
            address: [0; 2],
            session_id: 0,
            config_id: ConfigId(0),
            channel: Channel(0),
            preamble_index: PreambleIndex(0),
            interval: 0,
            slot: 0,
            key_length: 0,
            key: [0; 32],
            country: [0; 2],
            role: 0,
            mode: 0,
        }
    }

    fn least() -> u8 {
        15
    }

    fn fault(b: &[u8]) -> Result<(), Refusal> {
        if !allowed_interval(u16_at(b, 11)) {
            return Err(Refusal::NotAllowed);
        }
        if !inside(1, 2, b[13]) {
            return Err(Refusal::NotAllowed);
        }
        if !allowed_key_length(b[14]) {
            return Err(Refusal::NotAllowed);
        }
        let country = 15 + b[14] as usize;
        if b.len() < country + 4 {
            return Err(Refusal::BlockTooSmall);
        }
        after_key_fault(b, country)
    }

    fn has_room(m: &[u8], at: u32) -> bool {
        let i = at as usize;
        if m.len() < i + 19 {
            return false;
        }
        let k = m[i + 14] as usize;
        (k <= 32) & (i + (19 + k) <= m.len())
    }

    fn read(b: &[u8]) -> UwbConfiguration {
        let k = b[14] as usize;
        let after = 15 + k;
        let role = after + 2;
        let mode = role + 1;
        let address = octets_at(b, 2);
        let key = padded_at(b, 15, k);
        let country = octets_at(b, after);
        UwbConfiguration {
            address,
            session_id: u32_at(b, 4),
            config_id: ConfigId(b[8]),
            channel: Channel(b[9]),
            preamble_index: PreambleIndex(b[10]),
            interval: u16_at(b, 11),
            slot: b[13],
            key_length: b[14],
            key,
            country,
            role: b[role],
            mode: b[mode],
        }
    }

    fn is_allowed(&self) -> bool {
        if !allowed_key_length(self.key_length) {
            return false;
        }
        let country = self.country;
        let k = self.key_length as usize;
        let last = inside(1, 2, self.role) & (inside(1, 2, self.mode) & zero_from(&self.key, k));
        allowed_interval(self.interval)
            & (inside(1, 2, self.slot) & (allowed_country(country) & last))
    }

    fn is_zero(&self) -> bool {
        let ids = (self.session_id == 0)
            & ((self.config_id.0 == 0) & ((self.channel.0 == 0) & (self.preamble_index.0 == 0)));
        let timing = (self.interval == 0) & ((self.slot == 0) & (self.key_length == 0));
        let last = all_zero(&self.country) & ((self.role == 0) & (self.mode == 0));
        all_zero(&self.address) & (ids & (timing & (all_zero(&self.key) & last)))
    }

    fn size(&self) -> u8 {
        19 + self.key_length
    }

    fn put_fields(&self, out: &mut [u8], at: usize) -> usize {
        let k = self.key_length as usize;
        let session_id = put_octets(out, at, &self.address);
        let key_length = put_before_key(self, out, session_id);
        let octets = put(out, key_length, self.key_length);
        let country = put_first(out, octets, &self.key, k);
        put_after_key(self, out, country)
    }
}
