// How a step is decided, in place: the state as a whole is not copied.
ghost use Rattle.std.specs.Prelude.{◌≡◌};
ghost use Rattle.rules.specs.Acceptance.{rules_of};
ghost use Rattle.enforcement.specs.Gate.{decide_step};
ghost use Rattle.enforcement.specs.Deciding.{Ranged, decide, next_of, answered, RightChecked};

use crate::states::State;
use rights::{is_bound, refusal};
use rules::RuleList;
use steps::{Acting, Action, Answer, Refusal, Step};

impl State {
    // A step from a state and under a list that 40 does not refuse.
    pub(crate) fn decide(&mut self, list: &RuleList, step: Step) -> Answer
        ensures { next_of self.new result ≡ decide_step list.now self.old step }
    {
        match self.decided(list, step) {
            Ok(answer) => answer,
            Err(refusal) => Answer::Refused {
                number: refusal.number(),
            },
        }
    }

    fn decided(&mut self, list: &RuleList, step: Step) -> Result<Answer, Refusal>
        ensures { next_of self.new (answered result) ≡ decide_step list.now self.old step }
    {
        let action = step.action();
        self.check_right(list, step.by, action)?;
        self.carry_out(list, action)
    }

    // 53 and 54.
    fn check_right(&self, list: &RuleList, by: Acting, action: Action) -> Result<(), Refusal>
        ensures { RightChecked list.now.rights self.now by action result }
    {
        if !is_bound(&list.rights, by, action) {
            return Ok(());
        }
        refusal(
            &list.rights,
            by,
            action,
            &self.sessions,
            &self.active,
            &self.granted,
        )
    }

    // By the checks and the rules of its own kind.
    #[tactic(auto, unfolding(crate::specs::Deciding::decide, crate::specs::Steps::check, crate::specs::Gate::checked_next))]
    fn carry_out(&mut self, list: &RuleList, action: Action) -> Result<Answer, Refusal>
        requires { Ranged action }
        ensures { next_of self.new (answered result) ≡ decide (rules_of list.now) self.old action }
    {
        match action {
            Action::Malformed => Err(Refusal::Malformed),
            Action::Assign { user, role } => self.assign_role(list, user, role),
            Action::Withdraw { user, role } => self.withdraw_role(list, user, role),
            Action::Grant { role, permission } => self.grant_permission(list, role, permission),
            Action::Take { role, permission } => self.take_permission(role, permission),
            Action::Open { session, user } => self.start_session(session, user),
            Action::Activate { session, role } => self.activate_role(list, session, role),
            Action::Deactivate { session, role } => self.deactivate_role(list, session, role),
            Action::Access {
                session,
                permission,
                object,
            } => self.access_object(list, session, permission, object),
            Action::Finish { object } => self.finish_object(object),
            Action::Close { session } => self.close_session(list, session),
            Action::Move { session, point } => self.move_session(list, session, point),
            Action::Lost { session } => self.lose_session(list, session),
            Action::Clock { time } => self.set_clock(list, time),
            Action::Lend {
                lender,
                borrower,
                role,
                until,
            } => self.lend_role(list, lender, borrower, role, until),
            Action::Recall {
                lender,
                borrower,
                role,
            } => self.recall_role(list, lender, borrower, role),
        }
    }
}
