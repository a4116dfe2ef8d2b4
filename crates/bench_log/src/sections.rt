// What differs in the blocks of two messages: a section for each technology that both have.
ghost use Rattle.std.specs.Prelude.{◌≡◌, ◌+◌, ◌<◌, ◌≤◌};
ghost use Rattle.codec.specs.Inner.Puts.{Put};
ghost use Rattle.bench_log.specs.Comparison.{difference_lines};
ghost use Rattle.bench_log.specs.Inner.Differences.{technology_by, column_by, block_at, BlockReady, section_in, section_limit, SectionReady};

use crate::block::{Column, Reached, fields_of, put_field};
use crate::difference::Heading;
use crate::found::Found;

// Two blocks of a technology.
fn put_blocks(
    out: &mut [u8],
    at: usize,
    number: u64,
    column: Column,
    id: u8,
    left: &[u8],
    right: &[u8],
) -> usize
    requires { BlockReady (column_by column) (technology_by id) left.now right.now at out.old }
    ensures { Put out.old at (difference_lines number (block_at (column_by column) (technology_by id) left.now right.now)) out.new result
        × (result ≤ at + section_limit (column_by column) (technology_by id)) }
{
    let heading = Heading::of_block(number, id);
    let fields = fields_of(column, id);
    let mut reached = Reached {
        out: at,
        left: 2,
        right: 2,
    };
    for field in fields {
        reached = put_field(out, reached, heading, *field, left, right);
    }
    reached.out
}

// The section of a technology, if it is in the sets of both messages.
pub(crate) fn put_section(
    out: &mut [u8],
    at: usize,
    number: u64,
    column: Column,
    id: u8,
    left: &Found,
    right: &Found,
) -> usize
    requires { (id < 4) × SectionReady (column_by column) (technology_by id) left.now.set right.now.set left.now.message.now left.now.places right.now.message.now right.now.places at out.old }
    ensures { Put out.old at (difference_lines number (section_in (column_by column) left.now.set right.now.set left.now.message.now left.now.places right.now.message.now right.now.places (technology_by id))) out.new result
        × (result ≤ at + section_limit (column_by column) (technology_by id)) }
{
    if !codec::both_have(left.set, right.set, id) {
        return at;
    }
    put_blocks(out, at, number, column, id, left.block(id), right.block(id))
}
