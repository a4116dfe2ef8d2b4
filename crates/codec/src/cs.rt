// CS, channel sounding: its two blocks.
ghost use Rattle.std.specs.Prelude.{refl};
ghost use Rattle.codec.specs.Blocks.{cs_capability, cs_configuration};
ghost use Rattle.codec.specs.Records.{to_cs_capability, to_cs_configuration, of_cs_capability, of_cs_configuration};

use crate::fields::Fields;
use crate::octets::{all_zero, inside, octets_at, put, put_octets};
use crate::refusal::Refusal;

#[repr(C)]
#[derive(Clone, Copy)]
pub struct CsCapability {
    pub security_types: u8,
    pub address: [u8; 6],
}

#[repr(C)]
#[derive(Clone, Copy)]
pub struct CsConfiguration {
    pub security_level: u8,
    pub address: [u8; 6],
}

impl Fields for CsCapability {
    ghost layout = { cs_capability };

    ghost made = { to_cs_capability };

    ghost values = { of_cs_capability };

    ghost keeps = { λ v. refl };

    fn zero() -> CsCapability {
        CsCapability {
            security_types: 0,
            address: [0; 6],
        }
    }

    fn least() -> u8 {
        9
    }

    fn fault(_b: &[u8]) -> Result<(), Refusal> {
        Ok(())
    }

    fn has_room(m: &[u8], at: u32) -> bool {
        at as usize + 9 <= m.len()
    }

    fn read(b: &[u8]) -> CsCapability {
        let address = octets_at(b, 3);
        CsCapability {
            security_types: b[2],
            address,
        }
    }

    fn is_allowed(&self) -> bool {
        true
    }

    fn is_zero(&self) -> bool {
        (self.security_types == 0) & all_zero(&self.address)
    }

    fn size(&self) -> u8 {
        9
    }

    fn put_fields(&self, out: &mut [u8], at: usize) -> usize {
        let address = put(out, at, self.security_types);
        put_octets(out, address, &self.address)
    }
}

impl Fields for CsConfiguration {
    ghost layout = { cs_configuration };

    ghost made = { to_cs_configuration };

    ghost values = { of_cs_configuration };

    ghost keeps = { λ v. refl };

    fn zero() -> CsConfiguration {
        CsConfiguration {
            security_level: 0,
            address: [0; 6],
        }
    }

    fn least() -> u8 {
        9
    }

    fn fault(b: &[u8]) -> Result<(), Refusal> {
        if !inside(0, 4, b[2]) {
            return Err(Refusal::NotAllowed);
        }
        Ok(())
    }

    fn has_room(m: &[u8], at: u32) -> bool {
        at as usize + 9 <= m.len()
    }

    fn read(b: &[u8]) -> CsConfiguration {
        let address = octets_at(b, 3);
        CsConfiguration {
            security_level: b[2],
            address,
        }
    }

    fn is_allowed(&self) -> bool {
        inside(0, 4, self.security_level)
    }

    fn is_zero(&self) -> bool {
        (self.security_level == 0) & all_zero(&self.address)
    }

    fn size(&self) -> u8 {
        9
    }

    fn put_fields(&self, out: &mut [u8], at: usize) -> usize {
        let address = put(out, at, self.security_level);
        put_octets(out, address, &self.address)
    }
}
