// An accepted message, as two are compared: its octets, its technology set, and where its blocks begin.
ghost use Rattle.std.specs.Prelude.{◌≡◌, ◌<◌, ◌≤◌, length, drop, slice_index};
ghost use Rattle.codec.specs.Technology.{known};
ghost use Rattle.codec.specs.Message.{id_of, set_of};

use codec::technology::SET_LIMIT;

#[derive(Clone, Copy)]
pub(crate) struct Found<'a> {
    pub(crate) message: &'a [u8],
    pub(crate) places: [u16; 5],
    pub(crate) set: u16,
    ghost with_head: { 4 ≤ length message.now },
    ghost without_reserved: { set ≡ known (set_of message.now) },
}

impl<'a> Found<'a> {
    pub(crate) fn new(message: &'a [u8], places: [u16; 5]) -> Found<'a>
        requires { 4 ≤ length message.now }
        ensures { (result.message.now ≡ message.now) × (result.places ≡ places) }
    {
        let set = u16::from_le_bytes([message[2], message[3]]) % SET_LIMIT;
        Found {
            message,
            places,
            set,
        }
    }

    pub(crate) fn id(&self) -> u8
        ensures { result ≡ id_of self.now.message.now }
    {
        self.message[1]
    }

    // The block of a technology, and what comes after it.
    #[tactic(auto, using(codec::proofs::Laws::suffix))]
    pub(crate) fn block(&self, id: u8) -> &'a [u8]
        requires { (id < 4) × (slice_index self.now.places id ≤ length self.now.message.now) }
        ensures { result.now ≡ drop (slice_index self.now.places id) self.now.message.now }
    {
        let place = self.places[usize::from(id)];
        &self.message[usize::from(place)..]
    }
}
