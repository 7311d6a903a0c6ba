// The rules over a state that was read.
ghost use Rattle.std.specs.Prelude.{◌≡◌};
ghost use Rattle.rules.specs.Acceptance.{rules_of};
ghost use Rattle.rules.specs.Lowest.{lowest};
ghost use Rattle.enforcement.specs.States.{rule_holds};

use enforcement::State;
use rules::{Facts, RuleList};

// The full test of each rule over the whole state, lowest first.
pub(crate) fn lowest_broken(list: &RuleList, state: &State) -> Option<usize>
    ensures { result ≡ lowest (λ rule. rule_holds rule state.now) 1 (rules_of list.now) }
{
    let facts = Facts {
        assigned: &state.assigned,
        held: &state.loans.held(&state.assigned),
        granted: &state.granted,
        sessions: &state.sessions,
        active: &state.active,
        history: &state.history,
        time: state.time,
    };
    rules::lowest_broken(list.used(), facts)
}
