// A column of 01's table: the struct that holds what the blocks of one message say.
ghost use Rattle.std.specs.Prelude.{◌≡◌, ◌+◌, ◌≤◌, length};
ghost use Rattle.codec.specs.Technology as technology;
ghost use Rattle.codec.specs.Blocks.{Column as TableColumn, layouts, rssi_block};
ghost use Rattle.codec.specs.Table.{row, message_of};
ghost use Rattle.codec.specs.Message.{blocks_at};
ghost use Rattle.codec.specs.Records.{StructOf, blank, of_rssi};
ghost use Rattle.codec.specs.Inner.Places.{column_at, fields_fault};
ghost use Rattle.codec.specs.Inner.Puts.{InColumn};

use crate::fields::Fields;
use crate::places::fields_at;
use crate::refusal::Refusal;
use crate::rssi::Rssi;

pub trait Column: Copy {
    type Uwb: Fields;

    type Cs: Fields;

    type Nan: Fields;

    ghost column: { TableColumn };

    ghost kept: { Self → StructOf column };

    // The place where the blocks of its message start, after the sets.
    fn blocks_at() -> usize
        ensures { result ≡ blocks_at (row (message_of column)).times };

    // The first fault of the block at a place of a message.
    fn fault(m: &[u8], at: usize) -> Result<(), Refusal>
        requires { at + 2 ≤ length m.now }
        ensures { result ≡ fields_fault (layouts column) m.now at };

    // The column of these fields.
    fn of(uwb: Self::Uwb, cs: Self::Cs, nan: Self::Nan, rssi: Rssi) -> Self
        ensures uwb { InColumn column (kept result) technology.uwb Self.Uwb.layout (Self.Uwb.values uwb) }
        ensures cs { InColumn column (kept result) technology.cs Self.Cs.layout (Self.Cs.values cs) }
        ensures nan { InColumn column (kept result) technology.nan Self.Nan.layout (Self.Nan.values nan) }
        ensures rssi { InColumn column (kept result) technology.rssi rssi_block (of_rssi rssi) };

    fn uwb(&self) -> &Self::Uwb
        ensures { InColumn column (kept self.now) technology.uwb Self.Uwb.layout (Self.Uwb.values result.now) };

    fn cs(&self) -> &Self::Cs
        ensures { InColumn column (kept self.now) technology.cs Self.Cs.layout (Self.Cs.values result.now) };

    fn nan(&self) -> &Self::Nan
        ensures { InColumn column (kept self.now) technology.nan Self.Nan.layout (Self.Nan.values result.now) };

    fn rssi(&self) -> &Rssi
        ensures { InColumn column (kept self.now) technology.rssi rssi_block (of_rssi result.now) };
}

// All fields zero.
pub fn zero<C: Column>() -> C
    ensures { C.kept result ≡ blank C.column }
{
    C::of(C::Uwb::zero(), C::Cs::zero(), C::Nan::zero(), Rssi::zero())
}

// What the blocks at these places of a message say. UWB's fields are read last, since most of them would wait on the stack.
pub(crate) fn column_at<C: Column>(m: &[u8], places: &[u16; 5]) -> C
    ensures { C.kept result ≡ column_at C.column m.now places.now }
{
    let cs = fields_at(m, u32::from(places[1]));
    let rssi = fields_at(m, u32::from(places[3]));
    let nan = fields_at(m, u32::from(places[2]));
    let uwb = fields_at(m, u32::from(places[0]));
    C::of(uwb, cs, nan, rssi)
}
