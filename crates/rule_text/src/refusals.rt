// Why a line of a text of rules is refused.
ghost use Rattle.std.specs.Prelude.{◌≡◌};
ghost use Rattle.rule_text.specs.Refusals.{refusal_number};

#[derive(Clone, Copy, Debug, PartialEq, Eq)]
pub enum Refusal {
    // The line is no form of its text.
    NoForm,
    // A number is outside its range.
    OutOfRange,
    // The rule's number is not the next, or a right does not stand here.
    NotNext,
    // A role or permission stands twice in a rule.
    SameTwice,
    // No such date, or an end before its start.
    Unsound,
    // The line is none of the policies that are read.
    NoPolicy,
}

impl Refusal {
    // The number that answers name it by.
    pub fn number(self) -> u64
        ensures { result ≡ refusal_number self }
    {
        match self {
            Refusal::NoForm => 10,
            Refusal::OutOfRange => 11,
            Refusal::NotNext => 12,
            Refusal::SameTwice => 13,
            Refusal::Unsound => 14,
            Refusal::NoPolicy => 55,
        }
    }
}

// The first line of a text that is refused, counted from 1.
#[derive(Clone, Copy, Debug, PartialEq, Eq)]
pub struct BadLine {
    pub refusal: Refusal,
    pub line: usize,
}
