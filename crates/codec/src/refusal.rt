// Refusals: why a message, a record or a call is refused, with the paper's number of each. specs/ say when each is given.
ghost use Rattle.std.specs.Prelude.{◌≡◌};
ghost use Rattle.codec.specs.Refusal.{number_of};

#[derive(Clone, Copy, Debug, PartialEq, Eq)]
pub enum Refusal {
    // the message has more than 256 octets
    TooLong,
    // it ends before a field or block that its layout needs
    EndsEarly,
    // its ID is reserved
    ReservedId,
    // version 0, or above 1 with an ID other than 0 and 1
    WrongVersion,
    // the two sets of a Configuration differ
    SetsDiffer,
    // a block's size is below its need (below 2 for ID 4 to 15)
    BlockTooSmall,
    // a block's ID has no bit in the set (always so from 16), or came before
    WrongBlock,
    // a field is not allowed
    NotAllowed,
    // octets are left over in version 1
    LeftOver,
    // a session is given message 1, 3 or 7
    NotForTag,
    // the lent buffer is shorter than what is to be written
    BufferTooShort,
    // a record to be written, or a profile, is not valid
    NotValid,
    // a log record breaks its layout
    BrokenRecord,
}

// The paper's number, which the C structs carry; 0 is none.
impl From<Refusal> for u8 {
    ghost from_gives = { λ refusal number. number ≡ number_of refusal };

    fn from(refusal: Refusal) -> u8
        ensures { result ≡ number_of refusal }
    {
        match refusal {
            Refusal::TooLong => 1,
            Refusal::EndsEarly => 2,
            Refusal::ReservedId => 3,
            Refusal::WrongVersion => 4,
            Refusal::SetsDiffer => 5,
            Refusal::BlockTooSmall => 6,
            Refusal::WrongBlock => 7,
            Refusal::NotAllowed => 8,
            Refusal::LeftOver => 9,
            Refusal::NotForTag => 10,
            Refusal::BufferTooShort => 11,
            Refusal::NotValid => 12,
            Refusal::BrokenRecord => 13,
        }
    }
}
