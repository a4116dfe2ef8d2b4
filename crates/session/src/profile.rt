// Profiles: which are valid, and what the choice of explicit replies says.
ghost use Rattle.std.specs.Prelude.{◌≡◌, ◌<◌, ltb, is_some, MatchOption};
ghost use Rattle.session.specs.Rules.{valid_profile, explicit};
ghost use Rattle.session.specs.Session.{empty_profile};
ghost use Rattle.session.specs.Inner.Replies.{choice_number};

use crate::state::Profile;

// The choices of explicit replies. Not said means off.
#[derive(Clone, Copy, PartialEq, Eq)]
pub(crate) enum Choice {
    NotSaid,
    On,
    Off,
}

impl Choice {
    // The choice with a number, if there is one.
    pub(crate) fn numbered(number: u8) -> Option<Choice>
        ensures known { is_some result ≡ ltb number 3 }
        ensures choice { MatchOption result (2 < number) (λ choice. choice_number choice ≡ number) }
    {
        match number {
            0 => Some(Choice::NotSaid),
            1 => Some(Choice::On),
            2 => Some(Choice::Off),
            _ => None,
        }
    }
}

impl Profile {
    // No technology, and nothing said of replies.
    pub(crate) fn empty() -> Profile
        ensures { result ≡ empty_profile }
    {
        Profile {
            set: 0,
            replies: 0,
            capability: codec::zero(),
        }
    }

    #[tactic(auto, unfolding(crate::specs::Rules::valid_profile))]
    pub(crate) fn is_valid(&self) -> bool
        ensures { result ≡ valid_profile self.now }
    {
        codec::valid_response(self.set, &self.capability) & Choice::numbered(self.replies).is_some()
    }

    pub(crate) fn replies_explicitly(&self) -> bool
        ensures { result ≡ explicit self.now.replies }
    {
        matches!(Choice::numbered(self.replies), Some(Choice::On))
    }
}
