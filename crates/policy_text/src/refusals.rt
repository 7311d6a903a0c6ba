// Why a rule list is not written as policies.
ghost use Rattle.std.specs.Prelude.{◌≡◌};
ghost use Rattle.policy_text.specs.Writing.{number_of, place_of};

#[derive(Clone, Copy, Debug, PartialEq, Eq)]
pub enum WriteRefusal {
    // The list is not accepted.
    NotAccepted,
    // The lowest rule that has no policy, and 0 for a right line.
    WithoutPolicy { rule: usize },
    // The space that was lent is shorter than these bytes.
    NoRoom { bytes: usize },
}

impl WriteRefusal {
    // The number that the answers name it by.
    pub fn number(self) -> u64
        ensures { result ≡ number_of self }
    {
        match self {
            WriteRefusal::NotAccepted => 40,
            WriteRefusal::WithoutPolicy { .. } => 56,
            WriteRefusal::NoRoom { .. } => 18,
        }
    }

    // The number that the answers give with it.
    pub fn place(self) -> usize
        ensures { result ≡ place_of self }
    {
        match self {
            WriteRefusal::NotAccepted => 0,
            WriteRefusal::WithoutPolicy { rule } => rule,
            WriteRefusal::NoRoom { bytes } => bytes,
        }
    }
}
