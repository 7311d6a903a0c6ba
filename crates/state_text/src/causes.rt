// Why a saved text is not read.
ghost use Rattle.std.specs.Prelude.{◌≡◌};
ghost use Rattle.state_text.specs.Refusals.{line_number, number_of, place_of};

// Why a line is refused.
#[derive(Clone, Copy, Debug, PartialEq, Eq)]
pub enum LineRefusal {
    // It is no form of a saved text.
    NoForm,
    // A number is outside its range.
    OutOfRange,
    // It is out of order, or stands twice.
    OutOfOrder,
    // What it rests on is not there.
    Unrested,
    // It is a loan after 32 others.
    LoansFull,
}

impl LineRefusal {
    // The number that answers name it by.
    pub fn number(self) -> u64
        ensures { result ≡ line_number self }
    {
        match self {
            LineRefusal::NoForm => 10,
            LineRefusal::OutOfRange => 11,
            LineRefusal::OutOfOrder => 15,
            LineRefusal::Unrested => 16,
            LineRefusal::LoansFull => 51,
        }
    }
}

// Why no state is read.
#[derive(Clone, Copy, Debug, PartialEq, Eq)]
pub enum Refusal {
    // The rules that are handed in with the text are not accepted.
    RulesNotAccepted,
    // A line is bad.
    Line { refusal: LineRefusal, line: usize },
    // The state breaks a rule, and none below it.
    RuleBroken { rule: usize },
}

impl Refusal {
    // The number that answers name it by.
    pub fn number(self) -> u64
        ensures { result ≡ number_of self }
    {
        match self {
            Refusal::RulesNotAccepted => 40,
            Refusal::Line { refusal, .. } => refusal.number(),
            Refusal::RuleBroken { .. } => 17,
        }
    }

    // The line, or the rule that is broken; 0 for rules that are not accepted.
    pub fn place(self) -> usize
        ensures { result ≡ place_of self }
    {
        match self {
            Refusal::RulesNotAccepted => 0,
            Refusal::Line { line, .. } => line,
            Refusal::RuleBroken { rule } => rule,
        }
    }
}
