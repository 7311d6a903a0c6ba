// The lowest rule of a list that fails a test.
ghost use Rattle.std.specs.Prelude.{◌≡◌, Bool, map};
ghost use Rattle.rules.specs.Acceptance.{rule_of};
ghost use Rattle.rules.specs.Facts.{view_of};
ghost use Rattle.rules.specs.Families.{holds};
ghost use Rattle.rules.specs.Lowest.{lowest};
ghost use Rattle.rules.specs.declared.families.Rule.{Rule};

use crate::facts::Facts;
use crate::families::Rule;
use crate::lists::Slot;

// Its number, if there is one; rules are numbered from 1.
fn lowest_failing<F: Fn(Rule) -> bool + Drop>(slots: &[Slot], passes: F) -> Option<usize>
    requires { F.IsAlwaysCallable passes }
    ensures { (test : Rule → Bool) → ((rule : Rule) (b : Bool) → F.post passes rule b → b ≡ test rule) → result ≡ lowest test 1 (map rule_of slots.now) }
{
    for (i, slot) in slots.iter().enumerate() {
        if !passes(slot.rule) {
            return Some(i + 1);
        }
    }
    None
}

// The number of the lowest rule that the facts break, if there is one.
pub fn lowest_broken(slots: &[Slot], facts: Facts) -> Option<usize>
    ensures { result ≡ lowest (λ rule. holds rule (view_of facts.entry)) 1 (map rule_of slots.now) }
{
    lowest_failing(slots, |rule| rule.test(facts).is_none())
}
