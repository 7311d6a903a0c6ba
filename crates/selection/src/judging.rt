// A request's judgement: the lowest broken one of the rules that it selects, and how many it selects.
ghost use Rattle.std.specs.Prelude.{◌≡◌, ◌<◌};
ghost use Rattle.rules.specs.Acceptance.{rules_of};
ghost use Rattle.rules.specs.Facts.{view_of};
ghost use Rattle.rules.specs.Families.{holds};
ghost use Rattle.selection.specs.Selection.{selects};
ghost use Rattle.selection.specs.Judging.{judged_of, visited};

use crate::selection::{choice_of, is_chosen};
use rules::{Facts, Rule, RuleList};
use steps::Action;

#[derive(Clone, Copy, Debug, PartialEq, Eq)]
pub struct Judged {
    pub broken: Option<usize>,
    pub selected: usize,
}

// The rules of the list, lowest first.
#[tactic(auto, using(crate::proofs::Judgement::judged_turns))]
pub fn judge(list: &RuleList, action: Action, facts: Facts) -> Judged
    ensures { result ≡ judged_of (selects action) (view_of facts.entry) (rules_of list.now) }
{
    let choice = choice_of(action);
    let mut judged = Judged {
        broken: None,
        selected: 0,
    };
    for (i, slot) in list.used().iter().enumerate() {
        if is_chosen(choice, slot.rule) {
            judged = visit(judged, slot.rule, i + 1, facts);
        }
    }
    judged
}

// One selected rule more: it is counted, and tested while no rule is broken.
#[tactic(auto, unfolding(crate::specs::Judging::visited))]
fn visit(judged: Judged, rule: Rule, number: usize, facts: Facts) -> Judged
    requires { judged.selected < number }
    ensures { result ≡ visited (holds rule (view_of facts.entry)) judged number }
{
    let selected = judged.selected + 1;
    if judged.broken.is_some() || rule.test(facts).is_none() {
        return Judged { selected, ..judged };
    }
    Judged {
        broken: Some(number),
        selected,
    }
}
