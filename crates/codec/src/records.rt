// Records: what a message says, and the reader's answer.
ghost use Rattle.std.specs.Prelude.{◌≡◌};
ghost use Rattle.codec.specs.Blocks.{capabilities, configurations};
ghost use Rattle.codec.specs.Records.{message_id, refused};

use crate::blocks::fault_by_id;
use crate::columns::{Column, zero};
use crate::cs::{CsCapability, CsConfiguration};
use crate::message::{CAPABILITY_REQUEST, CONFIGURATION_RESPONSE, STOP, STOP_RESPONSE};
use crate::nan::{NanCapability, NanConfiguration};
use crate::refusal::Refusal;
use crate::rssi::Rssi;
use crate::uwb::{UwbCapability, UwbConfiguration};

// What the blocks of message 1 say. An absent technology's fields are zero.
#[repr(C)]
#[derive(Clone, Copy)]
pub struct Capability {
    pub uwb: UwbCapability,
    pub cs: CsCapability,
    pub nan: NanCapability,
    pub rssi: Rssi,
}

// What the blocks of message 2 say. An absent technology's fields are zero.
#[repr(C)]
#[derive(Clone, Copy)]
pub struct Configuration {
    pub uwb: UwbConfiguration,
    pub cs: CsConfiguration,
    pub nan: NanConfiguration,
    pub rssi: Rssi,
}

// A message without its version: its ID, its technology set (bit n for ID n), and what its blocks say.
#[repr(C)]
#[derive(Clone, Copy)]
pub struct Record {
    pub id: u8,
    pub set: u16,
    pub capability: Capability,
    pub configuration: Configuration,
}

// A message that carries a set and nothing else.
#[derive(Clone, Copy)]
pub enum SetMessage {
    Request,
    ConfigurationResponse,
    Stop,
    StopResponse,
}

// A refusal's number and an all-zero record, or 0 and the record.
#[repr(C)]
#[derive(Clone, Copy)]
pub struct Reading {
    pub refusal: u8,
    pub value: Record,
}

// What a tag hears of a message: its ID and set, and where the settings of a Configuration stand in it; 0 for other messages.
#[derive(Clone, Copy)]
pub struct Heard {
    pub id: u8,
    pub set: u16,
    pub uwb: u32,
    pub cs: u32,
    pub nan: u32,
    pub rssi: u32,
}

// A block of a message: its place, its ID and its size. All zero for none.
#[repr(C)]
#[derive(Clone, Copy)]
pub struct Block {
    pub place: usize,
    pub id: u8,
    pub size: u8,
}

// A refusal's number and 0 octets, or 0 and how many octets were written.
#[repr(C)]
#[derive(Clone, Copy)]
pub struct Written {
    pub refusal: u8,
    pub length: usize,
}

pub(crate) fn message_id(message: SetMessage) -> u8
    ensures { result ≡ message_id message }
{
    match message {
        SetMessage::Request => CAPABILITY_REQUEST,
        SetMessage::ConfigurationResponse => CONFIGURATION_RESPONSE,
        SetMessage::Stop => STOP,
        SetMessage::StopResponse => STOP_RESPONSE,
    }
}

impl Column for Capability {
    type Uwb = UwbCapability;

    type Cs = CsCapability;

    type Nan = NanCapability;

    ghost column = { capabilities };

    ghost kept = { λ c. c };

    fn blocks_at() -> usize {
        4
    }

    fn fault(m: &[u8], at: usize) -> Result<(), Refusal> {
        fault_by_id::<UwbCapability, CsCapability, NanCapability>(m, at)
    }

    fn of(uwb: UwbCapability, cs: CsCapability, nan: NanCapability, rssi: Rssi) -> Capability {
        Capability { uwb, cs, nan, rssi }
    }

    fn uwb(&self) -> &UwbCapability {
        &self.uwb
    }

    fn cs(&self) -> &CsCapability {
        &self.cs
    }

    fn nan(&self) -> &NanCapability {
        &self.nan
    }

    fn rssi(&self) -> &Rssi {
        &self.rssi
    }
}

impl Column for Configuration {
    type Uwb = UwbConfiguration;

    type Cs = CsConfiguration;

    type Nan = NanConfiguration;

    ghost column = { configurations };

    ghost kept = { λ c. c };

    fn blocks_at() -> usize {
        6
    }

    fn fault(m: &[u8], at: usize) -> Result<(), Refusal> {
        fault_by_id::<UwbConfiguration, CsConfiguration, NanConfiguration>(m, at)
    }

    fn of(
        uwb: UwbConfiguration,
        cs: CsConfiguration,
        nan: NanConfiguration,
        rssi: Rssi,
    ) -> Configuration {
        Configuration { uwb, cs, nan, rssi }
    }

    fn uwb(&self) -> &UwbConfiguration {
        &self.uwb
    }

    fn cs(&self) -> &CsConfiguration {
        &self.cs
    }

    fn nan(&self) -> &NanConfiguration {
        &self.nan
    }

    fn rssi(&self) -> &Rssi {
        &self.rssi
    }
}

// A refusal by its number, as `read` gives it.
pub fn refused(number: u8) -> Reading
    ensures { result ≡ refused number }
{
    let capability = zero();
    let configuration = zero();
    Reading {
        refusal: number,
        value: Record {
            id: 0,
            set: 0,
            capability,
            configuration,
        },
    }
}
