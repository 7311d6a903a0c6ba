// Who acts in a step.
ghost use Rattle.std.specs.Prelude.{◌≡◌};
ghost use Rattle.steps.specs.Steps.{right_kind, is_administrative};

use crate::actions::Action;

// A word of the subject, so no `Option`.
#[derive(Clone, Copy, Debug, PartialEq, Eq)]
pub enum Acting {
    Nobody,
    // by s
    InSession(u64),
}

// Assign, withdraw, grant, take, lend and recall: the kinds that can have a right, and before which `by` can stand.
pub fn is_administrative(action: Action) -> bool
    ensures { result ≡ is_administrative action }
{
    right_kind(action) < 6
}

// The place of a kind among those six, counted from 0; 6 of any other, which is past the last right of a list, so that `get` finds none.
pub fn right_kind(action: Action) -> usize
    ensures { result ≡ right_kind action }
{
    match action {
        Action::Assign { .. } => 0,
        Action::Withdraw { .. } => 1,
        Action::Grant { .. } => 2,
        Action::Take { .. } => 3,
        Action::Lend { .. } => 4,
        Action::Recall { .. } => 5,
        _ => 6,
    }
}
