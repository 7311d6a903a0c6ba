// When two rules are equal: when their lines are, number aside.
ghost use Rattle.std.specs.Prelude.{◌≡◌};
ghost use Rattle.rules.specs.Acceptance.{rules_of};
ghost use Rattle.joining.specs.Joining.{equal_rules, equals_none};

use rules::{Rule, RuleList};

// The rules as lines under one number: the same form with the same values. Rules are equal by their lines, and not by their fields.
pub fn equal_rules(rule: Rule, other: Rule) -> bool
    ensures { result ≡ equal_rules rule other }
{
    rule_text::line_of(1, rule) == rule_text::line_of(1, other)
}

// The rule equals none of the list's.
pub(crate) fn equals_none(rule: Rule, list: &RuleList) -> bool
    ensures { result ≡ equals_none rule (rules_of list.now) }
{
    list.used().iter().all(|slot| !equal_rules(slot.rule, rule))
}
