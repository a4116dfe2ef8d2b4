// The settings of a technology: where a message holds them, and when they lie within a profile.
ghost use Rattle.std.specs.Prelude.{◌≡◌, ℕ, Bool};
ghost use Rattle.codec.specs.Technology.{uwb, cs, nan, rssi};
ghost use Rattle.codec.specs.Blocks.{configurations};
ghost use Rattle.codec.specs.Records.{blank, settings_in};
ghost use Rattle.codec.specs.Inner.Places.{settings_at};
ghost use Rattle.codec.specs.declared.records.Capability.{Capability};
ghost use Rattle.codec.specs.declared.records.Configuration.{Configuration};
ghost use Rattle.session.specs.Within.{within_profile};

use crate::within::{has_channel, has_config_id, has_preamble_index, has_role};
use codec::technology::{CS, NAN, RSSI, UWB};
use codec::{
    Capability, Channel, ConfigId, CsConfiguration, Heard, NanConfiguration, PreambleIndex, Rssi,
    UwbConfiguration, has,
};

// What a Configuration says of one technology.
pub(crate) trait Settings: Copy {
    // The technology's ID.
    const ID: u8;

    ghost ID: { ℕ };

    // Its settings among those of a Configuration, and which lie within a profile.
    ghost settings_of: { Configuration → Self };

    ghost fits: { Capability → Self → Bool };

    // Each a literal: the compiler clears them where they lie.
    fn zero() -> Self
        ensures { result ≡ settings_of (blank configurations) };

    fn at(heard: &Heard, octets: &[u8]) -> Self
        ensures { result ≡ settings_of (settings_at heard.now octets.now) };

    fn is_within(&self, capability: &Capability) -> bool
        ensures { result ≡ fits capability.now self.now };
}

impl Settings for UwbConfiguration {
    const ID: u8 = UWB;

    ghost ID = { 0 };

    ghost settings_of = { λ c. settings_in c uwb };

    ghost fits = { λ k x. within_profile uwb k.uwb x };

    fn zero() -> UwbConfiguration {
        UwbConfiguration {
            address: [0; 2],
            session_id: 0,
            config_id: ConfigId(0),
            channel: Channel(0),
            preamble_index: PreambleIndex(0),
            interval: 0,
            slot: 0,
            key_length: 0,
            key: [0; 32],
            country: [0; 2],
            role: 0,
            mode: 0,
        }
    }

    fn at(heard: &Heard, octets: &[u8]) -> UwbConfiguration {
        codec::fields_at(octets, heard.uwb)
    }

    fn is_within(&self, capability: &Capability) -> bool {
        let k = &capability.uwb;
        has_config_id(k.config_ids, self.config_id)
            && has_channel(k.channels, self.channel)
            && has_preamble_index(k.preamble_indexes, self.preamble_index)
            && k.shortest_interval <= self.interval
            && k.shortest_slot <= self.slot
            && has_role(k.roles, self.role)
    }
}

impl Settings for CsConfiguration {
    const ID: u8 = CS;

    ghost ID = { 1 };

    ghost settings_of = { λ c. settings_in c cs };

    ghost fits = { λ k x. within_profile cs k.cs x };

    fn zero() -> CsConfiguration {
        CsConfiguration {
            security_level: 0,
            address: [0; 6],
        }
    }

    fn at(heard: &Heard, octets: &[u8]) -> CsConfiguration {
        codec::fields_at(octets, heard.cs)
    }

    fn is_within(&self, capability: &Capability) -> bool {
        has(u16::from(capability.cs.security_types), self.security_level)
    }
}

impl Settings for NanConfiguration {
    const ID: u8 = NAN;

    ghost ID = { 2 };

    ghost settings_of = { λ c. settings_in c nan };

    ghost fits = { λ k x. within_profile nan k.nan x };

    fn zero() -> NanConfiguration {
        NanConfiguration {
            name_length: 0,
            name: [0; 64],
            role: 0,
            periodic: 0,
        }
    }

    fn at(heard: &Heard, octets: &[u8]) -> NanConfiguration {
        codec::fields_at(octets, heard.nan)
    }

    fn is_within(&self, capability: &Capability) -> bool {
        self.periodic != 1 || capability.nan.periodic == 1
    }
}

impl Settings for Rssi {
    const ID: u8 = RSSI;

    ghost ID = { 3 };

    ghost settings_of = { λ c. settings_in c rssi };

    ghost fits = { λ k x. within_profile rssi k.rssi x };

    fn zero() -> Rssi {
        Rssi { address: [0; 6] }
    }

    fn at(heard: &Heard, octets: &[u8]) -> Rssi {
        codec::fields_at(octets, heard.rssi)
    }

    fn is_within(&self, _capability: &Capability) -> bool {
        true
    }
}
