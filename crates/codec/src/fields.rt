// The fields of a block: what the struct that holds them does itself, by the layout that 01's table gives the block.
ghost use Rattle.std.specs.Prelude.{◌≡◌, ◌&&◌, ◌+◌, ◌≤◌, length, drop};
ghost use Rattle.codec.specs.Layout.{Layout, Values, zeroes, value, write, least, fault, allowed, cleared, zeroed};
ghost use Rattle.codec.specs.Inner.Places.{roomy, Roomy};
ghost use Rattle.codec.specs.Inner.Puts.{Put, Held};

use crate::refusal::Refusal;

pub trait Fields: Copy {
    ghost layout: { Layout };

    ghost made: { Values layout → Self };

    ghost values: { Self → Values layout };

    // All fields zero.
    fn zero() -> Self
        ensures { result ≡ made (zeroes layout) };

    // The size that a block has at least, which the first size test is against.
    fn least() -> u8
        ensures { result ≡ least layout 2 };

    // The first fault in the fields of a block of that size.
    fn fault(b: &[u8]) -> Result<(), Refusal>
        requires { least layout 2 ≤ length b.now }
        ensures { result ≡ fault layout 2 b.now };

    // Whether a message reaches past the last field of a block at this place, and what is counted fits its array.
    fn has_room(m: &[u8], at: u32) -> bool
        ensures { result ≡ roomy layout 2 (drop at m.now) };

    // The fields in the octets of a block.
    fn read(b: &[u8]) -> Self
        requires { Roomy layout 2 b.now }
        ensures { result ≡ made (value layout 2 b.now) };

    // Whether the fields are allowed, with zeros past what is counted.
    fn is_allowed(&self) -> bool
        ensures { result ≡ (allowed layout (values self.now) && cleared layout (values self.now)) };

    fn is_zero(&self) -> bool
        ensures { result ≡ zeroed layout (values self.now) };

    // How many octets the block takes with its head.
    fn size(&self) -> u8
        requires { Held layout (values self.now) }
        ensures { result ≡ 2 + length (write layout (values self.now)) };

    // Writes the fields, which follow the head.
    fn put_fields(&self, out: &mut [u8], at: usize) -> usize
        requires { (at + length (write layout (values self.now)) ≤ length out.old) × Held layout (values self.now) }
        ensures { Put out.old at (write layout (values self.now)) out.new result };

    ghost keeps: { (v : Values layout) → values (made v) ≡ v };
}
