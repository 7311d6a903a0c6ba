// The events, with numbers in range: each makes its change, then the roles end that the rules want ended. One pass over the rules makes a plan,
// and rounds on sets of roles follow it until nothing changes.
#![tactic(auto, unfolding(crate::specs::Deciding::decide, crate::specs::Deciding::event_of, crate::specs::Deciding::placed_of, crate::specs::Steps::check, crate::specs::Steps::target, crate::specs::Steps::unheld_closed, crate::specs::Gate::checked_next, crate::specs::Gate::passed_next, loans::specs::Meant::meant))]

ghost use Rattle.std.specs.Prelude.{◌≡◌, ◌<◌};
ghost use Rattle.rules.specs.Acceptance.{rules_of};
ghost use Rattle.enforcement.specs.Deciding.{decide, next_of, answered, event_of, held_event_of, placed_of};

use crate::states::{State, closed_session};
use loans::Which;
use places::{Point, Position};
use rules::RuleList;
use selection::rounds::{held_active, plan_settled};
use steps::pairs::ended;
use steps::{Action, Answer, Refusal};

impl State {
    pub(crate) fn close_session(
        &mut self,
        list: &RuleList,
        session: usize,
    ) -> Result<Answer, Refusal>
        requires { session < 32 }
        ensures { next_of self.new (answered result) ≡ decide (rules_of list.now) self.old (Action.Close session) }
    {
        if !self.sessions[session].is_open {
            return Err(Refusal::SessionNotOpen);
        }
        let before = self.active;
        self.sessions[session] = closed_session();
        self.active[session] = 0;
        Ok(self.end_roles(list, Action::Close { session }, &before))
    }

    pub(crate) fn move_session(
        &mut self,
        list: &RuleList,
        session: usize,
        point: Point,
    ) -> Result<Answer, Refusal>
        requires { session < 32 }
        ensures { next_of self.new (answered result) ≡ decide (rules_of list.now) self.old (Action.Move session point) }
    {
        let action = Action::Move { session, point };
        self.place_session(list, action, session, Position::Known(point))
    }

    pub(crate) fn lose_session(
        &mut self,
        list: &RuleList,
        session: usize,
    ) -> Result<Answer, Refusal>
        requires { session < 32 }
        ensures { next_of self.new (answered result) ≡ decide (rules_of list.now) self.old (Action.Lost session) }
    {
        self.place_session(list, Action::Lost { session }, session, Position::Unknown)
    }

    // move and lost
    fn place_session(
        &mut self,
        list: &RuleList,
        action: Action,
        session: usize,
        position: Position,
    ) -> Result<Answer, Refusal>
        requires { session < 32 }
        ensures { next_of self.new (answered result) ≡ placed_of (rules_of list.now) self.old action session position }
    {
        if !self.sessions[session].is_open {
            return Err(Refusal::SessionNotOpen);
        }
        self.sessions[session].position = position;
        let before = self.active;
        Ok(self.end_roles(list, action, &before))
    }

    pub(crate) fn set_clock(&mut self, list: &RuleList, time: u64) -> Result<Answer, Refusal>
        ensures { next_of self.new (answered result) ≡ decide (rules_of list.now) self.old (Action.Clock time) }
    {
        if time < self.time {
            return Err(Refusal::TimeBefore);
        }
        self.time = time;
        self.loans = self.loans.kept(Which::Longer { time });
        Ok(self.end_unheld_roles(list, Action::Clock { time }))
    }

    pub(crate) fn recall_role(
        &mut self,
        list: &RuleList,
        lender: usize,
        borrower: usize,
        role: usize,
    ) -> Result<Answer, Refusal>
        ensures { next_of self.new (answered result) ≡ decide (rules_of list.now) self.old (Action.Recall lender borrower role) }
    {
        if !self.loans.has_some(Which::Named {
            lender,
            borrower,
            role,
        }) {
            return Err(Refusal::Missing);
        }
        self.loans = self.loans.kept(Which::Others {
            lender,
            borrower,
            role,
        });
        let action = Action::Recall {
            lender,
            borrower,
            role,
        };
        Ok(self.end_unheld_roles(list, action))
    }

    // An event that may have ended loans itself closes every active role that is not held, before the rules are looked at.
    fn end_unheld_roles(&mut self, list: &RuleList, action: Action) -> Answer
        ensures { next_of self.new result ≡ held_event_of (rules_of list.now) self.old.active self.old action }
    {
        let before = self.active;
        let held = self.loans.held(&self.assigned);
        self.active = held_active(&held, &self.sessions, &before);
        self.end_roles(list, action, &before)
    }

    // An event's target, with the roles ended that the selected rules want ended. `before` is what was active before the event.
    fn end_roles(&mut self, list: &RuleList, action: Action, before: &[u32; 32]) -> Answer
        ensures { next_of self.new result ≡ event_of (rules_of list.now) before.now self.old action }
    {
        let plan = self.plan_of(list, action);
        self.active = plan_settled(self.active, &plan.out, &plan.needs, plan.dead);
        Answer::Granted {
            selected: plan.selected,
            ended: ended(before, &self.active),
        }
    }
}
