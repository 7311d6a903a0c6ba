// Two rule lists joined: the rules of the first, then in turn each rule of the second that equals none already there.
ghost use Rattle.std.specs.Prelude.{◌≡◌, true};
ghost use Rattle.rules.specs.Acceptance.{rules_of, list_accepted};
ghost use Rattle.rule_text.specs.Reading.{list_of};
ghost use Rattle.joining.specs.Joining.{by_number, joined_rights, rules_joined, join_of, ObeyedAsBoth};

use crate::equality::equals_none;
use crate::refusals::Refusal;
use crate::right_lines::{rights_of_both, test_rights};
use rules::RuleList;

// The joined list. Refused are a list that is not accepted, then rights that differ, then more than 128 rules. A state obeys the joined list
// just if it obeys both.
#[tactic(auto, unfolding(crate::specs::Joining::join_of))]
pub fn join(first: RuleList, second: RuleList) -> Result<RuleList, Refusal>
    ensures given { by_number result ≡ join_of first second }
    ensures obeyed { ObeyedAsBoth first second (by_number result) }
{
    if !(first.is_accepted() && second.is_accepted()) {
        return Err(Refusal::NotAccepted);
    }
    if let Some(kind) = test_rights(&first.rights, &second.rights) {
        return Err(Refusal::RightsDiffer { kind });
    }
    join_rules(&first, &second)
}

// The rules of the first, and in turn each of the second, as long as there is a place for it.
fn join_rules(first: &RuleList, second: &RuleList) -> Result<RuleList, Refusal>
    requires { list_accepted first.now ≡ true }
    ensures { by_number result ≡ rules_joined 1 (joined_rights first.now.rights second.now.rights) (rules_of first.now) (rules_of second.now) }
{
    let mut list = with_both_rights(first, second);
    for (i, slot) in second.used().iter().enumerate() {
        if !equals_none(slot.rule, &list) {
            continue;
        }
        if list.length == RuleList::MOST {
            return Err(Refusal::TooMany { rule: i + 1 });
        }
        list.slots[list.length] = *slot;
        list.length += 1;
    }
    Ok(list)
}

// The rules of the first list, under the rights of both.
fn with_both_rights(first: &RuleList, second: &RuleList) -> RuleList
    requires { list_accepted first.now ≡ true }
    ensures { result ≡ list_of (joined_rights first.now.rights second.now.rights) (rules_of first.now) }
{
    let rules = first.used();
    let mut slots = rule_text::no_rules().slots;
    slots[..rules.len()].copy_from_slice(rules);
    RuleList {
        slots,
        length: rules.len(),
        rights: rights_of_both(&first.rights, &second.rights),
    }
}
