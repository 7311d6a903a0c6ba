// Why two rule lists are not joined.
ghost use Rattle.std.specs.Prelude.{◌≡◌};
ghost use Rattle.joining.specs.Joining.{number_of, place_of};

#[derive(Clone, Copy, Debug, PartialEq, Eq)]
pub enum Refusal {
    // One of the lists is not accepted.
    NotAccepted,
    // Both have a right line of this kind, counted from 0, with different permissions.
    RightsDiffer { kind: usize },
    // They have more than 128 rules: this rule of the second is one too many.
    TooMany { rule: usize },
    // The lent slots are fewer than these rules.
    NoRoom { rules: usize },
}

impl Refusal {
    // The number that the answers name it by.
    pub fn number(self) -> u64
        ensures { result ≡ number_of self }
    {
        match self {
            Refusal::NotAccepted => 40,
            Refusal::RightsDiffer { .. } => 58,
            Refusal::TooMany { .. } => 57,
            Refusal::NoRoom { .. } => 18,
        }
    }

    // The number that the answers give with it.
    pub fn place(self) -> usize
        ensures { result ≡ place_of self }
    {
        match self {
            Refusal::NotAccepted => 0,
            Refusal::RightsDiffer { kind } => kind,
            Refusal::TooMany { rule } => rule,
            Refusal::NoRoom { rules } => rules,
        }
    }
}
