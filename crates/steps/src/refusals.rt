// Why a step is refused, but for a broken rule (30).
ghost use Rattle.std.specs.Prelude.{◌≡◌};
ghost use Rattle.steps.specs.Refusals.{number_of};

#[derive(Clone, Copy, Debug, PartialEq, Eq)]
pub enum Refusal {
    // A number of the step is outside its range, or `by` stands before a step of another kind.
    Malformed,
    // The time is before the present one.
    TimeBefore,
    SessionOpen,
    SessionNotOpen,
    // Already held, granted, or active in this session.
    Already,
    // Not assigned, granted or active in this session, or no such loan.
    Missing,
    // The session's user does not hold the role.
    NotHeld,
    // The role is active in a session of the user, or lent out by him.
    InUse,
    // No role active in the session carries the permission.
    NotCarried,
    // The rule list or the state that was handed in.
    NotAccepted,
    // The lender is not assigned the role.
    LenderLacks,
    // As many loans run as may.
    LoansFull,
    // The loan's time is not later than now.
    LoanEnded,
    // The acting session is not open.
    ActorNotOpen,
    // No session acts, or no role active in it carries the permission.
    RightLacking,
}

impl Refusal {
    // The number that stands for it in an answer.
    pub fn number(self) -> usize
        ensures { result ≡ number_of self }
    {
        match self {
            Refusal::Malformed => 20,
            Refusal::TimeBefore => 21,
            Refusal::SessionOpen => 22,
            Refusal::SessionNotOpen => 23,
            Refusal::Already => 24,
            Refusal::Missing => 25,
            Refusal::NotHeld => 26,
            Refusal::InUse => 27,
            Refusal::NotCarried => 28,
            Refusal::NotAccepted => 40,
            Refusal::LenderLacks => 50,
            Refusal::LoansFull => 51,
            Refusal::LoanEnded => 52,
            Refusal::ActorNotOpen => 53,
            Refusal::RightLacking => 54,
        }
    }
}
