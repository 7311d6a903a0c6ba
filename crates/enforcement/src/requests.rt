// The requests, with numbers in range: the checks of the table's second column, the change, and the old word put back where a selected rule is
// broken.
#![tactic(auto, using(crate::proofs::RequestLaws::carried_permissions), unfolding(crate::specs::Deciding::decide, crate::specs::Deciding::request_of, crate::specs::Steps::check, crate::specs::Steps::target, crate::specs::Gate::checked_next, crate::specs::Gate::passed_next, loans::specs::Meant::meant, rights::specs::Rights::is_carried))]

ghost use Rattle.std.specs.Prelude.{◌≡◌, false, List, ◌<◌, ◌≤◌};
ghost use Rattle.rules.specs.Acceptance.{rules_of};
ghost use Rattle.rules.specs.Families.{view, is_active_for};
ghost use Rattle.rules.specs.declared.families.Rule.{Rule};
ghost use Rattle.selection.specs.Selection.{selects};
ghost use Rattle.selection.specs.Judging.{judged_of, reads_held};
ghost use Rattle.enforcement.specs.Deciding.{decide, next_of, answered, with_user_roles, with_role_permissions, with_session_roles, with_users_done, with_loan, request_by};

use crate::states::State;
use loans::{Loan, Which, has_ended};
use places::Position;
use rights::is_carried;
use rules::{Facts, RuleList, Session};
use selection::{Judged, judge};
use sets::Set;
use steps::pairs::fewer;
use steps::{Action, Answer, Refusal};

impl State {
    pub(crate) fn assign_role(
        &mut self,
        list: &RuleList,
        user: usize,
        role: usize,
    ) -> Result<Answer, Refusal>
        requires { user < 64 }
        ensures { next_of self.new (answered result) ≡ decide (rules_of list.now) self.old (Action.Assign user role) }
    {
        if self.loans.is_held(&self.assigned, user, role) {
            return Err(Refusal::Already);
        }
        let roles = self.assigned[user].with(role);
        Ok(self.change_assigned(list, Action::Assign { user, role }, user, roles))
    }

    pub(crate) fn withdraw_role(
        &mut self,
        list: &RuleList,
        user: usize,
        role: usize,
    ) -> Result<Answer, Refusal>
        requires { user < 64 }
        ensures { next_of self.new (answered result) ≡ decide (rules_of list.now) self.old (Action.Withdraw user role) }
    {
        if !self.assigned[user].contains(role) {
            return Err(Refusal::Missing);
        }
        if self.is_active_for(user, role)
            || self.loans.has_some(Which::LentOut { lender: user, role })
        {
            return Err(Refusal::InUse);
        }
        let roles = self.assigned[user].without(role);
        Ok(self.change_assigned(list, Action::Withdraw { user, role }, user, roles))
    }

    // Other roles of a user.
    fn change_assigned(
        &mut self,
        list: &RuleList,
        action: Action,
        user: usize,
        roles: u32,
    ) -> Answer
        requires { user < 64 }
        ensures { next_of self.new result ≡ request_by (rules_of list.now) self.old action (with_user_roles user roles) }
    {
        let old = self.assigned[user];
        self.assigned[user] = roles;
        let held = self.loans.held(&self.assigned);
        let judged = self.judge(list, action, &held);
        if let Some(rule) = judged.broken {
            self.assigned[user] = old;
            return broken(rule, judged.selected);
        }
        granted(judged.selected, 0)
    }

    pub(crate) fn grant_permission(
        &mut self,
        list: &RuleList,
        role: usize,
        permission: usize,
    ) -> Result<Answer, Refusal>
        requires { role < 32 }
        ensures { next_of self.new (answered result) ≡ decide (rules_of list.now) self.old (Action.Grant role permission) }
    {
        let permissions = self.granted[role];
        if permissions.contains(permission) {
            return Err(Refusal::Already);
        }
        let action = Action::Grant { role, permission };
        Ok(self.change_granted(list, action, role, permissions.with(permission)))
    }

    // Other permissions of a role.
    fn change_granted(
        &mut self,
        list: &RuleList,
        action: Action,
        role: usize,
        permissions: u32,
    ) -> Answer
        requires { (role < 32) × (reads_held action ≡ false) }
        ensures { next_of self.new result ≡ request_by (rules_of list.now) self.old action (with_role_permissions role permissions) }
    {
        let old = self.granted[role];
        self.granted[role] = permissions;
        let judged = self.judge(list, action, &self.assigned);
        if let Some(rule) = judged.broken {
            self.granted[role] = old;
            return broken(rule, judged.selected);
        }
        granted(judged.selected, 0)
    }

    pub(crate) fn take_permission(
        &mut self,
        role: usize,
        permission: usize,
    ) -> Result<Answer, Refusal>
        requires { role < 32 }
        ensures { (rules : List Rule) → next_of self.new (answered result) ≡ decide rules self.old (Action.Take role permission) }
    {
        if !self.granted[role].contains(permission) {
            return Err(Refusal::Missing);
        }
        self.granted[role] = self.granted[role].without(permission);
        Ok(granted(0, 0))
    }

    pub(crate) fn start_session(&mut self, session: usize, user: usize) -> Result<Answer, Refusal>
        requires { (session < 32) × (user < 64) }
        ensures { (rules : List Rule) → next_of self.new (answered result) ≡ decide rules self.old (Action.Open session user) }
    {
        if self.sessions[session].is_open {
            return Err(Refusal::SessionOpen);
        }
        self.sessions[session] = Session {
            is_open: true,
            user: user as u32,
            position: Position::Unknown,
        };
        Ok(granted(0, 0))
    }

    pub(crate) fn activate_role(
        &mut self,
        list: &RuleList,
        session: usize,
        role: usize,
    ) -> Result<Answer, Refusal>
        requires { session < 32 }
        ensures { next_of self.new (answered result) ≡ decide (rules_of list.now) self.old (Action.Activate session role) }
    {
        let place = self.sessions[session];
        if !place.is_open {
            return Err(Refusal::SessionNotOpen);
        }
        let roles = self.active[session];
        if roles.contains(role) {
            return Err(Refusal::Already);
        }
        if !self
            .loans
            .is_held(&self.assigned, place.user as usize, role)
        {
            return Err(Refusal::NotHeld);
        }
        let action = Action::Activate { session, role };
        Ok(self.change_active(list, action, session, roles.with(role)))
    }

    pub(crate) fn deactivate_role(
        &mut self,
        list: &RuleList,
        session: usize,
        role: usize,
    ) -> Result<Answer, Refusal>
        requires { session < 32 }
        ensures { next_of self.new (answered result) ≡ decide (rules_of list.now) self.old (Action.Deactivate session role) }
    {
        if !self.sessions[session].is_open {
            return Err(Refusal::SessionNotOpen);
        }
        let roles = self.active[session];
        if !roles.contains(role) {
            return Err(Refusal::Missing);
        }
        let action = Action::Deactivate { session, role };
        Ok(self.change_active(list, action, session, roles.without(role)))
    }

    // Other active roles of a session.
    fn change_active(
        &mut self,
        list: &RuleList,
        action: Action,
        session: usize,
        roles: u32,
    ) -> Answer
        requires { (session < 32) × (reads_held action ≡ false) }
        ensures { next_of self.new result ≡ request_by (rules_of list.now) self.old action (with_session_roles session roles) }
    {
        let old = self.active[session];
        self.active[session] = roles;
        let judged = self.judge(list, action, &self.assigned);
        if let Some(rule) = judged.broken {
            self.active[session] = old;
            return broken(rule, judged.selected);
        }
        granted(judged.selected, fewer(old, roles))
    }

    pub(crate) fn access_object(
        &mut self,
        list: &RuleList,
        session: usize,
        permission: usize,
        object: usize,
    ) -> Result<Answer, Refusal>
        requires { (session < 32) × (permission < 32) × (object < 32) }
        ensures { next_of self.new (answered result) ≡ decide (rules_of list.now) self.old (Action.Access session permission object) }
    {
        let place = self.sessions[session];
        if !place.is_open {
            return Err(Refusal::SessionNotOpen);
        }
        if !is_carried(&self.granted, self.active[session], permission) {
            return Err(Refusal::NotCarried);
        }
        let index = object * 32 + permission;
        let users = self.history[index].with(place.user as usize);
        let action = Action::Access {
            session,
            permission,
            object,
        };
        Ok(self.change_history(list, action, index, users))
    }

    // Other users who did a permission on an object.
    fn change_history(
        &mut self,
        list: &RuleList,
        action: Action,
        index: usize,
        users: u64,
    ) -> Answer
        requires { (index < 1024) × (reads_held action ≡ false) }
        ensures { next_of self.new result ≡ request_by (rules_of list.now) self.old action (with_users_done index users) }
    {
        let old = self.history[index];
        self.history[index] = users;
        let judged = self.judge(list, action, &self.assigned);
        if let Some(rule) = judged.broken {
            self.history[index] = old;
            return broken(rule, judged.selected);
        }
        granted(judged.selected, 0)
    }

    pub(crate) fn finish_object(&mut self, object: usize) -> Result<Answer, Refusal>
        requires { object < 32 }
        ensures { (rules : List Rule) → next_of self.new (answered result) ≡ decide rules self.old (Action.Finish object) }
    {
        let start = object * 32;
        self.history[start..start + 32].fill(0);
        Ok(granted(0, 0))
    }

    pub(crate) fn lend_role(
        &mut self,
        list: &RuleList,
        lender: usize,
        borrower: usize,
        role: usize,
        until: u64,
    ) -> Result<Answer, Refusal>
        requires { (lender < 64) × (borrower < 64) × (role < 32) × (until ≤ 3155759999) }
        ensures { next_of self.new (answered result) ≡ decide (rules_of list.now) self.old (Action.Lend lender borrower role until) }
    {
        if !self.assigned[lender].contains(role) {
            return Err(Refusal::LenderLacks);
        }
        if self.loans.is_held(&self.assigned, borrower, role) {
            return Err(Refusal::Already);
        }
        if has_ended(until, self.time) {
            return Err(Refusal::LoanEnded);
        }
        if self.loans.is_full() {
            return Err(Refusal::LoansFull);
        }
        let action = Action::Lend {
            lender,
            borrower,
            role,
            until,
        };
        let loan = Loan {
            until: until as u32,
            lender: lender as u8,
            borrower: borrower as u8,
            role: role as u8,
        };
        Ok(self.add_loan(list, action, loan))
    }

    fn add_loan(&mut self, list: &RuleList, action: Action, loan: Loan) -> Answer
        ensures { next_of self.new result ≡ request_by (rules_of list.now) self.old action (with_loan loan) }
    {
        let old = self.loans;
        self.loans = old.with(loan);
        let held = self.loans.held(&self.assigned);
        let judged = self.judge(list, action, &held);
        if let Some(rule) = judged.broken {
            self.loans = old;
            return broken(rule, judged.selected);
        }
        granted(judged.selected, 0)
    }

    // The judgement of the state as a step has changed it, with the roles that users then hold. A step that selects no rule on what is held
    // may hand in what is assigned.
    fn judge(&self, list: &RuleList, action: Action, held: &[u32; 64]) -> Judged
        ensures { result ≡ judged_of (selects action) (view self.now.assigned held.now self.now.granted self.now.sessions self.now.active self.now.history self.now.time) (rules_of list.now) }
    {
        let facts = Facts {
            assigned: &self.assigned,
            held,
            granted: &self.granted,
            sessions: &self.sessions,
            active: &self.active,
            history: &self.history,
            time: self.time,
        };
        judge(list, action, facts)
    }

    // A user has a role active in some session of his.
    fn is_active_for(&self, user: usize, role: usize) -> bool
        ensures { result ≡ is_active_for self.now.sessions self.now.active user role }
    {
        for (i, session) in self.sessions.iter().enumerate() {
            if session.user as usize == user && self.active[i].contains(role) {
                return true;
            }
        }
        false
    }
}

fn granted(selected: usize, ended: usize) -> Answer
    ensures { result ≡ Answer.Granted selected ended }
{
    Answer::Granted { selected, ended }
}

fn broken(rule: usize, selected: usize) -> Answer
    ensures { result ≡ Answer.Broken rule selected }
{
    Answer::Broken { rule, selected }
}
