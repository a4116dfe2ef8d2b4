// RSSI: its block, the same in both messages.
ghost use Rattle.std.specs.Prelude.{refl};
ghost use Rattle.codec.specs.Blocks.{rssi_block};
ghost use Rattle.codec.specs.Records.{to_rssi, of_rssi};

use crate::fields::Fields;
use crate::octets::{all_zero, octets_at, put_octets};
use crate::refusal::Refusal;

#[repr(C)]
#[derive(Clone, Copy)]
pub struct Rssi {
    pub address: [u8; 6],
}

impl Fields for Rssi {
    ghost layout = { rssi_block };

    ghost made = { to_rssi };

    ghost values = { of_rssi };

    ghost keeps = { λ v. refl };

    fn zero() -> Rssi {
        Rssi { address: [0; 6] }
    }

    fn least() -> u8 {
        8
    }

    fn fault(_b: &[u8]) -> Result<(), Refusal> {
        Ok(())
    }

    fn has_room(m: &[u8], at: u32) -> bool {
        at as usize + 8 <= m.len()
    }

    fn read(b: &[u8]) -> Rssi {
        let address = octets_at(b, 2);
        Rssi { address }
    }

    fn is_allowed(&self) -> bool {
        true
    }

    fn is_zero(&self) -> bool {
        all_zero(&self.address)
    }

    fn size(&self) -> u8 {
        8
    }

    fn put_fields(&self, out: &mut [u8], at: usize) -> usize {
        put_octets(out, at, &self.address)
    }
}
