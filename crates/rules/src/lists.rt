// A rule list by value: 128 slots and a length, rule n in slot n - 1; and a right, or none, for each kind of step that can have one, in the
// order assign, withdraw, grant, take, lend, recall.
ghost use Rattle.std.specs.Prelude.{◌≡◌, take};
ghost use Rattle.rules.specs.Acceptance.{list_accepted};

use crate::families::Rule;
use crate::rights::{RightSlot, rights_accepted};

// What callers lend for a joined list, so its type stays.
#[derive(Clone, Copy)]
pub struct Slot {
    pub rule: Rule,
}

// An array with a length beside it: there is no heap, and a length past the last slot is one that 40 refuses.
#[derive(Clone, Copy)]
pub struct RuleList {
    pub slots: [Slot; 128],
    pub length: usize,
    pub rights: [RightSlot; 6],
}

impl RuleList {
    pub const MOST: usize = 128;

    // The kinds of steps that can have a right.
    pub const RIGHTS: usize = 6;

    // The slots below the length; all of them where the length is past the last.
    pub fn used(&self) -> &[Slot]
        ensures { result.now ≡ take self.now.length self.now.slots }
    {
        &self.slots[..self.length.min(self.slots.len())]
    }

    // The length is at most 128, each rule below it is accepted, and each right's permission is in range (else 40). Slots past the length
    // are not looked at.
    #[tactic(auto, using(crate::proofs::Every::every_turns), unfolding(crate::specs::Acceptance::list_accepted))]
    pub fn is_accepted(&self) -> bool
        ensures { result ≡ list_accepted self.now }
    {
        if RuleList::MOST < self.length || !rights_accepted(&self.rights) {
            return false;
        }
        for slot in self.used() {
            if !slot.rule.is_accepted() {
                return false;
            }
        }
        true
    }
}
