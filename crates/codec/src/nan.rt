// Wi-Fi NAN RTT: its two blocks.
ghost use Rattle.std.specs.Prelude.{refl};
ghost use Rattle.codec.specs.Blocks.{nan_capability, nan_configuration};
ghost use Rattle.codec.specs.Records.{to_nan_capability, to_nan_configuration, of_nan_capability, of_nan_configuration};

use crate::fields::Fields;
use crate::octets::{all_zero, inside, padded_at, put, put_first, zero_from};
use crate::refusal::Refusal;

#[repr(C)]
#[derive(Clone, Copy)]
pub struct NanCapability {
    pub features: u8,
    pub periodic: u8,
    pub bandwidth: u8,
    pub receive_chains: u8,
}

#[repr(C)]
#[derive(Clone, Copy)]
pub struct NanConfiguration {
    pub name_length: u8,
    pub name: [u8; 64],
    pub role: u8,
    pub periodic: u8,
}

impl Fields for NanCapability {
    ghost layout = { nan_capability };

    ghost made = { to_nan_capability };

    ghost values = { of_nan_capability };

    ghost keeps = { λ v. refl };

    fn zero() -> NanCapability {
        NanCapability {
            features: 0,
            periodic: 0,
            bandwidth: 0,
            receive_chains: 0,
        }
    }

    fn least() -> u8 {
        6
    }

    fn fault(b: &[u8]) -> Result<(), Refusal> {
        if !inside(0, 1, b[3]) {
            return Err(Refusal::NotAllowed);
        }
        Ok(())
    }

    fn has_room(m: &[u8], at: u32) -> bool {
        at as usize + 6 <= m.len()
    }

    fn read(b: &[u8]) -> NanCapability {
        NanCapability {
            features: b[2],
            periodic: b[3],
            bandwidth: b[4],
            receive_chains: b[5],
        }
    }

    fn is_allowed(&self) -> bool {
        inside(0, 1, self.periodic)
    }

    fn is_zero(&self) -> bool {
        (self.features == 0)
            & ((self.periodic == 0) & ((self.bandwidth == 0) & (self.receive_chains == 0)))
    }

    fn size(&self) -> u8 {
        6
    }

    fn put_fields(&self, out: &mut [u8], at: usize) -> usize {
        let periodic = put(out, at, self.features);
        let bandwidth = put(out, periodic, self.periodic);
        let chains = put(out, bandwidth, self.bandwidth);
        put(out, chains, self.receive_chains)
    }
}

impl Fields for NanConfiguration {
    ghost layout = { nan_configuration };

    ghost made = { to_nan_configuration };

    ghost values = { of_nan_configuration };

    ghost keeps = { λ v. refl };

    fn zero() -> NanConfiguration {
        NanConfiguration {
            name_length: 0,
            name: [0; 64],
            role: 0,
            periodic: 0,
        }
    }

    fn least() -> u8 {
        3
    }

    fn fault(b: &[u8]) -> Result<(), Refusal> {
        if !inside(1, 64, b[2]) {
            return Err(Refusal::NotAllowed);
        }
        let role = 3 + b[2] as usize;
        let periodic = role + 1;
        if b.len() < periodic + 1 {
            return Err(Refusal::BlockTooSmall);
        }
        if !inside(0, 1, b[role]) {
            return Err(Refusal::NotAllowed);
        }
        if !inside(0, 1, b[periodic]) {
            return Err(Refusal::NotAllowed);
        }
        Ok(())
    }

    fn has_room(m: &[u8], at: u32) -> bool {
        let i = at as usize;
        if m.len() < i + 5 {
            return false;
        }
        let n = m[i + 2] as usize;
        (n <= 64) & (i + (5 + n) <= m.len())
    }

    fn read(b: &[u8]) -> NanConfiguration {
        let n = b[2] as usize;
        let role = 3 + n;
        let periodic = role + 1;
        let name = padded_at(b, 3, n);
        NanConfiguration {
            name_length: b[2],
            name,
            role: b[role],
            periodic: b[periodic],
        }
    }

    fn is_allowed(&self) -> bool {
        if !inside(1, 64, self.name_length) {
            return false;
        }
        let n = self.name_length as usize;
        inside(0, 1, self.role) & (inside(0, 1, self.periodic) & zero_from(&self.name, n))
    }

    fn is_zero(&self) -> bool {
        (self.name_length == 0) & (all_zero(&self.name) & ((self.role == 0) & (self.periodic == 0)))
    }

    fn size(&self) -> u8 {
        5 + self.name_length
    }

    fn put_fields(&self, out: &mut [u8], at: usize) -> usize {
        let n = self.name_length as usize;
        let octets = put(out, at, self.name_length);
        let role = put_first(out, octets, &self.name, n);
        let periodic = put(out, role, self.role);
        put(out, periodic, self.periodic)
    }
}
