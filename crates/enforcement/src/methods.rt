// A step of each kind by its own name: the state by value, the next one and the answer handed back. The numbers are as a text can hold
// them; 40 and 20 come first, as for every step. The six kinds before which `by` can stand take who acts.
ghost use Rattle.std.specs.Prelude.{◌≡◌};
ghost use Rattle.steps.specs.Steps.{numbered, moved, with_by};
ghost use Rattle.enforcement.specs.Gate.{step_of};

use crate::states::{Next, State};
use rules::RuleList;
use steps::{Acting, Step};

// Each number 0, by nobody: what a method leaves open of its step.
const NO_STEP: Step = Step {
    kind: 0,
    first: 0,
    second: 0,
    third: 0,
    fourth: 0,
    x: 0,
    y: 0,
    by: Acting::Nobody,
};

impl State {
    // assign u r
    pub fn assign(self, list: RuleList, by: Acting, user: u64, role: u64) -> Next
        ensures { result ≡ step_of list self (with_by by (numbered 0 user role 0 0)) }
    {
        let step = Step {
            kind: Step::ASSIGN,
            first: user,
            second: role,
            by,
            ..NO_STEP
        };
        self.step(list, step)
    }

    // withdraw u r
    pub fn withdraw(self, list: RuleList, by: Acting, user: u64, role: u64) -> Next
        ensures { result ≡ step_of list self (with_by by (numbered 1 user role 0 0)) }
    {
        let step = Step {
            kind: Step::WITHDRAW,
            first: user,
            second: role,
            by,
            ..NO_STEP
        };
        self.step(list, step)
    }

    // grant r p
    pub fn grant(self, list: RuleList, by: Acting, role: u64, permission: u64) -> Next
        ensures { result ≡ step_of list self (with_by by (numbered 2 role permission 0 0)) }
    {
        let step = Step {
            kind: Step::GRANT,
            first: role,
            second: permission,
            by,
            ..NO_STEP
        };
        self.step(list, step)
    }

    // take r p
    pub fn take(self, list: RuleList, by: Acting, role: u64, permission: u64) -> Next
        ensures { result ≡ step_of list self (with_by by (numbered 3 role permission 0 0)) }
    {
        let step = Step {
            kind: Step::TAKE,
            first: role,
            second: permission,
            by,
            ..NO_STEP
        };
        self.step(list, step)
    }

    // open s u
    pub fn open_session(self, list: RuleList, session: u64, user: u64) -> Next
        ensures { result ≡ step_of list self (numbered 4 session user 0 0) }
    {
        let step = Step {
            kind: Step::OPEN,
            first: session,
            second: user,
            ..NO_STEP
        };
        self.step(list, step)
    }

    // activate s r
    pub fn activate(self, list: RuleList, session: u64, role: u64) -> Next
        ensures { result ≡ step_of list self (numbered 5 session role 0 0) }
    {
        let step = Step {
            kind: Step::ACTIVATE,
            first: session,
            second: role,
            ..NO_STEP
        };
        self.step(list, step)
    }

    // deactivate s r
    pub fn deactivate(self, list: RuleList, session: u64, role: u64) -> Next
        ensures { result ≡ step_of list self (numbered 6 session role 0 0) }
    {
        let step = Step {
            kind: Step::DEACTIVATE,
            first: session,
            second: role,
            ..NO_STEP
        };
        self.step(list, step)
    }

    // access s p o
    pub fn access(self, list: RuleList, session: u64, permission: u64, object: u64) -> Next
        ensures { result ≡ step_of list self (numbered 7 session permission object 0) }
    {
        let step = Step {
            kind: Step::ACCESS,
            first: session,
            second: permission,
            third: object,
            ..NO_STEP
        };
        self.step(list, step)
    }

    // finish o
    pub fn finish(self, list: RuleList, object: u64) -> Next
        ensures { result ≡ step_of list self (numbered 8 object 0 0 0) }
    {
        let step = Step {
            kind: Step::FINISH,
            first: object,
            ..NO_STEP
        };
        self.step(list, step)
    }

    // close s
    pub fn close(self, list: RuleList, session: u64) -> Next
        ensures { result ≡ step_of list self (numbered 9 session 0 0 0) }
    {
        let step = Step {
            kind: Step::CLOSE,
            first: session,
            ..NO_STEP
        };
        self.step(list, step)
    }

    // move s x y e, with 0 for an e that is left out
    pub fn move_to(self, list: RuleList, session: u64, x: i64, y: i64, error: u64) -> Next
        ensures { result ≡ step_of list self (moved session x y error) }
    {
        let step = Step {
            kind: Step::MOVE,
            first: session,
            fourth: error,
            x,
            y,
            ..NO_STEP
        };
        self.step(list, step)
    }

    // lost s
    pub fn lost(self, list: RuleList, session: u64) -> Next
        ensures { result ≡ step_of list self (numbered 11 session 0 0 0) }
    {
        let step = Step {
            kind: Step::LOST,
            first: session,
            ..NO_STEP
        };
        self.step(list, step)
    }

    // clock t
    pub fn clock(self, list: RuleList, time: u64) -> Next
        ensures { result ≡ step_of list self (numbered 12 time 0 0 0) }
    {
        let step = Step {
            kind: Step::CLOCK,
            first: time,
            ..NO_STEP
        };
        self.step(list, step)
    }

    // lend u v r t
    pub fn lend(
        self,
        list: RuleList,
        by: Acting,
        lender: u64,
        borrower: u64,
        role: u64,
        until: u64,
    ) -> Next
        ensures { result ≡ step_of list self (with_by by (numbered 13 lender borrower role until)) }
    {
        let step = Step {
            kind: Step::LEND,
            first: lender,
            second: borrower,
            third: role,
            fourth: until,
            by,
            ..NO_STEP
        };
        self.step(list, step)
    }

    // recall u v r
    pub fn recall(self, list: RuleList, by: Acting, lender: u64, borrower: u64, role: u64) -> Next
        ensures { result ≡ step_of list self (with_by by (numbered 14 lender borrower role 0)) }
    {
        let step = Step {
            kind: Step::RECALL,
            first: lender,
            second: borrower,
            third: role,
            by,
            ..NO_STEP
        };
        self.step(list, step)
    }
}
