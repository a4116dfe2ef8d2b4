// What differs in a field of two blocks, and the fields of the blocks in 01's table.
ghost use Rattle.std.specs.Prelude.{◌≡◌, ◌+◌, ◌*◌, ◌≤◌, true, length};
ghost use Rattle.codec.specs.Octets.{of_le};
ghost use Rattle.codec.specs.Blocks.{cell};
ghost use Rattle.codec.specs.Inner.Puts.{Put};
ghost use Rattle.bench_log.specs.Comparison.{difference_lines};
ghost use Rattle.bench_log.specs.Inner.BlockFields.{is_width, are_fields, field_differences, field_end, field_limit, FieldReady};
ghost use Rattle.bench_log.specs.Inner.Differences.{column_by, technology_by};
ghost use Rattle.bench_log.specs.declared.block.Field.TheVariants.{Counted};

use crate::difference::Heading;
use Field::{Counted, Number, Octets};
use codec::technology::{CS, NAN, UWB};

// A field of a block, with its name.
#[derive(Clone, Copy)]
pub(crate) enum Field {
    // A number of one, two or four octets, the lowest first.
    Number(&'static [u8], usize),
    // So many octets.
    Octets(&'static [u8], usize),
    // An octet that says how many, and then so many octets, each with its name.
    Counted(&'static [u8], &'static [u8]),
}

// A column of 01's table: the blocks of message 1, or of message 2.
#[derive(Clone, Copy, Debug, PartialEq, Eq)]
pub(crate) enum Column {
    Capabilities,
    Configurations,
}

static UWB_CAPABILITY: [Field; 7] = [
    Octets(b"address", 2),
    Number(b"channels", 4),
    Number(b"preamble indexes", 4),
    Number(b"config IDs", 4),
    Number(b"shortest interval", 2),
    Number(b"shortest slot", 1),
    Number(b"roles", 1),
];

static CS_CAPABILITY: [Field; 2] = [Number(b"security types", 1), Octets(b"address", 6)];

static NAN_CAPABILITY: [Field; 4] = [
    Number(b"features", 1),
    Number(b"periodic", 1),
    Number(b"bandwidth", 1),
    Number(b"receive chains", 1),
];

static UWB_CONFIGURATION: [Field; 11] = [
    Octets(b"address", 2),
    Number(b"session ID", 4),
    Number(b"config ID", 1),
    Number(b"channel", 1),
    Number(b"preamble index", 1),
    Number(b"interval", 2),
    Number(b"slot", 1),
    Counted(b"key length", b"key"),
    Octets(b"country", 2),
    Number(b"role", 1),
    Number(b"mode", 1),
];

static CS_CONFIGURATION: [Field; 2] = [Number(b"security level", 1), Octets(b"address", 6)];

static NAN_CONFIGURATION: [Field; 3] = [
    Counted(b"name length", b"name"),
    Number(b"role", 1),
    Number(b"periodic", 1),
];

// RSSI's blocks are alike in both columns.
static RSSI_BLOCK: [Field; 1] = [Octets(b"address", 6)];

// The fields of a block, in order.
#[tactic(auto, unfolding(crate::specs::Inner::Differences::technology_by))]
pub(crate) fn fields_of(column: Column, id: u8) -> &'static [Field]
    ensures { are_fields result.now (cell (column_by column) (technology_by id)) ≡ true }
{
    match id {
        UWB => match column {
            Column::Capabilities => &UWB_CAPABILITY,
            Column::Configurations => &UWB_CONFIGURATION,
        },
        CS => match column {
            Column::Capabilities => &CS_CAPABILITY,
            Column::Configurations => &CS_CONFIGURATION,
        },
        NAN => match column {
            Column::Capabilities => &NAN_CAPABILITY,
            Column::Configurations => &NAN_CONFIGURATION,
        },
        _ => &RSSI_BLOCK,
    }
}

// A number of one, two or four octets at a place of a block.
fn number_at(block: &[u8], at: usize, width: usize) -> u64
    requires { (is_width width ≡ true) × (at + width ≤ length block.now) }
    ensures { result ≡ of_le width at block.now }
{
    match width {
        1 => u64::from(block[at]),
        2 => u64::from(u16::from_le_bytes([block[at], block[at + 1]])),
        _ => u64::from(u32::from_le_bytes([
            block[at],
            block[at + 1],
            block[at + 2],
            block[at + 3],
        ])),
    }
}

// The places after what was written, and after what was read of two blocks.
#[derive(Clone, Copy)]
pub(crate) struct Reached {
    pub out: usize,
    pub left: usize,
    pub right: usize,
}

// The lines of a length and of what it counts, if they differ.
fn put_counted(
    out: &mut [u8],
    from: Reached,
    heading: Heading,
    length: &'static [u8],
    name: &'static [u8],
    left: &[u8],
    right: &[u8],
) -> Reached
    requires { FieldReady heading.technology.now (Counted length name) left.now from.left right.now from.right from.out out.old }
    ensures text { Put out.old from.out (difference_lines heading.number (field_differences heading.technology.now (Counted length.entry name.entry) left.now from.left right.now from.right)) out.new result.out }
    ensures limit { result.out ≤ from.out + field_limit (Counted length.entry name.entry) left.now from.left right.now from.right }
    ensures read { (result.left ≡ field_end (Counted length.entry name.entry) from.left left.now) × (result.right ≡ field_end (Counted length.entry name.entry) from.right right.now) }
{
    let m = left[from.left];
    let n = right[from.right];
    let next = heading.put_numbers(out, from.out, length, u64::from(m), u64::from(n));
    let a = from.left + 1 + usize::from(m);
    let b = from.right + 1 + usize::from(n);
    let x = &left[from.left + 1..a];
    let y = &right[from.right + 1..b];
    Reached {
        out: heading.put_strings(out, next, name, x, y),
        left: a,
        right: b,
    }
}

// The lines of a field, if it differs.
pub(crate) fn put_field(
    out: &mut [u8],
    from: Reached,
    heading: Heading,
    field: Field,
    left: &[u8],
    right: &[u8],
) -> Reached
    requires { FieldReady heading.technology.now field left.now from.left right.now from.right from.out out.old }
    ensures text { Put out.old from.out (difference_lines heading.number (field_differences heading.technology.now field left.now from.left right.now from.right)) out.new result.out }
    ensures limit { result.out ≤ from.out + field_limit field left.now from.left right.now from.right }
    ensures read { (result.left ≡ field_end field from.left left.now) × (result.right ≡ field_end field from.right right.now) }
{
    match field {
        Number(name, width) => {
            let x = number_at(left, from.left, width);
            let y = number_at(right, from.right, width);
            Reached {
                out: heading.put_numbers(out, from.out, name, x, y),
                left: from.left + width,
                right: from.right + width,
            }
        }
        Octets(name, count) => {
            let a = from.left + count;
            let b = from.right + count;
            let x = &left[from.left..a];
            let y = &right[from.right..b];
            Reached {
                out: heading.put_strings(out, from.out, name, x, y),
                left: a,
                right: b,
            }
        }
        Counted(length, name) => put_counted(out, from, heading, length, name, left, right),
    }
}
