// Who may take the steps that change what is assigned, carried or lent: of each kind a right, or none.
ghost use Rattle.std.specs.Prelude.{◌≡◌};
ghost use Rattle.sets.specs.Sets.{all};
ghost use Rattle.rules.specs.Acceptance.{right_at, right_accepted};

use crate::families::Rule;

// A word of the subject, so no `Option`.
#[derive(Clone, Copy)]
pub enum Right {
    // There is no line of the kind: anyone may, whether a session acts or none.
    Unstated,
    // right kind p: a session acts, with an active role that carries p.
    Permission(u32),
}

impl Right {
    // Its permission is in range (else 11).
    pub fn is_accepted(self) -> bool
        ensures { result ≡ right_accepted self }
    {
        match self {
            Right::Unstated => true,
            Right::Permission(permission) => permission < Rule::PERMISSIONS,
        }
    }
}

#[derive(Clone, Copy)]
pub struct RightSlot {
    pub right: Right,
}

#[tactic(auto, using(crate::proofs::Every::all_turns))]
pub(crate) fn rights_accepted(rights: &[RightSlot; 6]) -> bool
    ensures { result ≡ all 6 (λ kind. right_accepted (right_at rights.now kind)) }
{
    for slot in rights {
        if !slot.right.is_accepted() {
            return false;
        }
    }
    true
}
