// What the rules that an event selects say of the active pairs: one pass over the list makes a plan.
ghost use Rattle.std.specs.Prelude.{◌≡◌, not, ◌&&◌};
ghost use Rattle.sets.specs.Sets.{member};
ghost use Rattle.places.specs.Places.{side_holds};
ghost use Rattle.rules.specs.Acceptance.{rules_of};
ghost use Rattle.rules.specs.declared.families.Rule.{Rule};
ghost use Rattle.selection.specs.Selection.{selects};
ghost use Rattle.selection.specs.Ending.{plan_settled};
ghost use Rattle.enforcement.specs.Rounds.{remaining};
ghost use Rattle.enforcement.specs.Deciding.{Planned, Adds, RuledOut, no_plan};
ghost use Rattle.enforcement.specs.declared.states.State.{State};

use crate::states::State;
use places::{Position, Side};
use rules::tests::active_somewhere;
use rules::{Rule, RuleList};
use selection::selection::{choice_of, first_of, is_chosen};
use sets::Set;
use steps::Action;

// What the selected rules say of each pair, whatever else is active.
#[derive(Clone, Copy)]
pub struct Plan {
    // The roles that `during` rules out, and those that need a role past the last.
    pub dead: u32,
    // Of each session the active roles that `at` rules out.
    pub out: [u32; 32],
    // Of each role the roles that it needs.
    pub needs: [u32; 32],
    pub selected: usize,
}

impl State {
    // The rules that a step selects, and what they say.
    pub(crate) fn plan_of(&self, list: &RuleList, action: Action) -> Plan
        ensures planned { Planned (selects action) (rules_of list.now) self.now result }
        ensures settled { plan_settled result.dead result.out result.needs self.now.active ≡ remaining (selects action) (rules_of list.now) self.now }
    {
        let choice = choice_of(action);
        let live = active_somewhere(&self.active);
        let mut plan = Plan::none();
        for slot in list.used() {
            if is_chosen(choice, slot.rule) {
                plan.selected += 1;
                // A rule on a role that is active nowhere lets every active pair stay.
                if live.contains(first_of(slot.rule)) {
                    plan.add(slot.rule, self);
                }
            }
        }
        plan
    }
}

impl Plan {
    fn none() -> Plan
        ensures { result ≡ no_plan }
    {
        Plan {
            dead: 0,
            out: [0; 32],
            needs: [0; 32],
            selected: 0,
        }
    }

    // What one rule more says, whatever it is counted as.
    fn add(&mut self, rule: Rule, state: &State)
        ensures { Adds rule state.now self.old self.new }
    {
        match rule {
            Rule::Dependency { role, needed } => self.need(role, needed),
            Rule::TimeContext { role, term } => {
                if !term.holds(state.time) {
                    self.dead = self.dead.with(role as usize);
                }
            }
            Rule::LocationContext { role, side } => {
                rule_out(&mut self.out, state, role as usize, side)
            }
            _ => {}
        }
    }

    // A role needs another. No role past the last is ever active.
    fn need(&mut self, role: u32, needed: u32)
        ensures { (s : State) → Adds (Rule.Dependency role needed) s self.old self.new }
    {
        if Rule::ROLES <= needed {
            self.dead = self.dead.with(role as usize);
        } else if role < Rule::ROLES {
            let roles = &mut self.needs[role as usize];
            *roles = (*roles).with(needed as usize);
        }
    }
}

// The role is ruled out in each session that has it active and is not positioned so.
fn rule_out(out: &mut [u32; 32], state: &State, role: usize, side: Side)
    ensures { RuledOut 32 out.old state.now.sessions state.now.active role side out.new }
{
    for (i, session) in state.sessions.iter().enumerate() {
        if is_misplaced(state.active[i], role, side, session.position) {
            out[i] = out[i].with(role);
        }
    }
}

// A session with these active roles has the role active and is not positioned so. Few sessions have it: the side is looked at for
// those alone.
fn is_misplaced(roles: u32, role: usize, side: Side, position: Position) -> bool
    ensures { result ≡ (member roles role && not (side_holds side position)) }
{
    roles.contains(role) && !side.holds(position)
}
