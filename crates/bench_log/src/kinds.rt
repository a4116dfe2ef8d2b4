// Kinds of positions in two logs, and how many there were of each.
ghost use Rattle.std.specs.Prelude.{◌≡◌};
ghost use Rattle.bench_log.specs.Comparison.{counted};

// A pair of records has the same octets, or the same reading, or is different. Other positions have a record on one side only.
#[derive(Clone, Copy, Debug, PartialEq, Eq)]
pub(crate) enum Kind {
    SameOctets,
    SameReading,
    Different,
    OnlyLeft,
    OnlyRight,
}

// How many positions there were, and how many of each kind. The counters start again from 0 after 2^64 - 1.
#[derive(Clone, Copy)]
pub struct Kinds {
    pub positions: u64,
    pub pairs: u64,
    pub same_octets: u64,
    pub same_reading: u64,
    pub different: u64,
    pub only_left: u64,
    pub only_right: u64,
}

impl Kinds {
    // The counters with one position of this kind more.
    #[tactic(auto, unfolding(crate::specs::Comparison::counted))]
    pub(crate) fn counted(self, kind: Kind) -> Kinds
        ensures { result ≡ counted self kind }
    {
        let all = Kinds {
            positions: self.positions.wrapping_add(1),
            ..self
        };
        let pairs = Kinds {
            pairs: self.pairs.wrapping_add(1),
            ..all
        };
        match kind {
            Kind::SameOctets => Kinds {
                same_octets: self.same_octets.wrapping_add(1),
                ..pairs
            },
            Kind::SameReading => Kinds {
                same_reading: self.same_reading.wrapping_add(1),
                ..pairs
            },
            Kind::Different => Kinds {
                different: self.different.wrapping_add(1),
                ..pairs
            },
            Kind::OnlyLeft => Kinds {
                only_left: self.only_left.wrapping_add(1),
                ..all
            },
            Kind::OnlyRight => Kinds {
                only_right: self.only_right.wrapping_add(1),
                ..all
            },
        }
    }
}
