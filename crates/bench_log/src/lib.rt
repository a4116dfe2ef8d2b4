// Bench logs: their records taken apart, the listing with its totals, and the comparison of two logs.
#![tactic(auto)]

mod block;
mod comparison;
mod difference;
mod entry;
mod found;
mod kinds;
mod layout;
mod listing;
mod messages;
mod pair;
mod same;
mod sections;
mod text;
mod totals;

pub use comparison::{Compared, POSITION_LIMIT, compare, sum_line};
pub use entry::{Accepted, Entry, entry_of};
pub use kinds::Kinds;
pub use layout::{Parts, RECORD_SIZE, take_apart};
pub use listing::{LINE_LIMIT, Listed, last_line, list};
pub use totals::Totals;
