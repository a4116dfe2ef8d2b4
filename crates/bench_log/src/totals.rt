// Totals: how many records were counted, and how many of them accepted and refused.
ghost use Rattle.std.specs.Prelude.{◌≡◌};
ghost use Rattle.bench_log.specs.Totals.{counted};

use crate::entry::Entry;

// The counters start again from 0 after 2^64 - 1.
#[derive(Clone, Copy)]
pub struct Totals {
    pub records: u64,
    pub accepted: u64,
    pub refused: u64,
}

impl Totals {
    // The totals with one record more.
    #[tactic(auto, unfolding(crate::specs::Totals::counted))]
    pub(crate) fn counted(self, e: Entry) -> Totals
        ensures { result ≡ counted self e }
    {
        let all = Totals {
            records: self.records.wrapping_add(1),
            ..self
        };
        match e.message {
            Ok(_) => Totals {
                accepted: self.accepted.wrapping_add(1),
                ..all
            },
            Err(_) => Totals {
                refused: self.refused.wrapping_add(1),
                ..all
            },
        }
    }
}
