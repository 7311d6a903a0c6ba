// A step as it is handed in, and with its numbers in range.
ghost use Rattle.std.specs.Prelude.{◌≡◌};
ghost use Rattle.steps.specs.Steps.{ranged, move_of, of_kind, acted_by, action_of};

use crate::acting::{Acting, is_administrative};
use crate::actions::Action;
use calendar::Term;
use places::{Point, on_grid};

// Plain numbers, wide enough for any that a text can hold, and who acts. Numbers that a kind does not use are not looked at.
#[derive(Clone, Copy, Debug, PartialEq, Eq)]
pub struct Step {
    pub kind: u64,
    pub first: u64,
    pub second: u64,
    pub third: u64,
    pub fourth: u64,
    pub x: i64,
    pub y: i64,
    pub by: Acting,
}

impl Step {
    // Users, roles, permissions, sessions and objects are numbered below these.
    pub const USERS: usize = 64;

    pub const ROLES: usize = 32;

    pub const PERMISSIONS: usize = 32;

    pub const SESSIONS: usize = 32;

    pub const OBJECTS: usize = 32;

    // assign u r
    pub const ASSIGN: u64 = 0;

    // withdraw u r
    pub const WITHDRAW: u64 = 1;

    // grant r p
    pub const GRANT: u64 = 2;

    // take r p
    pub const TAKE: u64 = 3;

    // open s u
    pub const OPEN: u64 = 4;

    // activate s r
    pub const ACTIVATE: u64 = 5;

    // deactivate s r
    pub const DEACTIVATE: u64 = 6;

    // access s p o
    pub const ACCESS: u64 = 7;

    // finish o
    pub const FINISH: u64 = 8;

    // close s
    pub const CLOSE: u64 = 9;

    // move s x y e, with 0 for an e that is left out; e is the fourth number
    pub const MOVE: u64 = 10;

    // lost s
    pub const LOST: u64 = 11;

    // clock t
    pub const CLOCK: u64 = 12;

    // lend u v r t
    pub const LEND: u64 = 13;

    // recall u v r
    pub const RECALL: u64 = 14;

    // The step with its numbers in range and `by` only where it can stand, or malformed.
    #[tactic(auto, unfolding(crate::specs::Steps::action_of))]
    pub fn action(self) -> Action
        ensures { result ≡ action_of self }
    {
        acted_by(self.by, self.of_kind())
    }

    // The same, whoever acts.
    #[tactic(auto, unfolding(crate::specs::Steps::of_kind))]
    fn of_kind(self) -> Action
        ensures { result ≡ of_kind self }
    {
        let first = self.first as usize;
        let second = self.second as usize;
        let third = self.third as usize;
        match self.kind {
            Step::ASSIGN => ranged(
                first < Step::USERS && second < Step::ROLES,
                Action::Assign {
                    user: first,
                    role: second,
                },
            ),
            Step::WITHDRAW => ranged(
                first < Step::USERS && second < Step::ROLES,
                Action::Withdraw {
                    user: first,
                    role: second,
                },
            ),
            Step::GRANT => ranged(
                first < Step::ROLES && second < Step::PERMISSIONS,
                Action::Grant {
                    role: first,
                    permission: second,
                },
            ),
            Step::TAKE => ranged(
                first < Step::ROLES && second < Step::PERMISSIONS,
                Action::Take {
                    role: first,
                    permission: second,
                },
            ),
            Step::OPEN => ranged(
                first < Step::SESSIONS && second < Step::USERS,
                Action::Open {
                    session: first,
                    user: second,
                },
            ),
            Step::ACTIVATE => ranged(
                first < Step::SESSIONS && second < Step::ROLES,
                Action::Activate {
                    session: first,
                    role: second,
                },
            ),
            Step::DEACTIVATE => ranged(
                first < Step::SESSIONS && second < Step::ROLES,
                Action::Deactivate {
                    session: first,
                    role: second,
                },
            ),
            Step::ACCESS => ranged(
                first < Step::SESSIONS && second < Step::PERMISSIONS && third < Step::OBJECTS,
                Action::Access {
                    session: first,
                    permission: second,
                    object: third,
                },
            ),
            Step::FINISH => ranged(first < Step::OBJECTS, Action::Finish { object: first }),
            Step::CLOSE => ranged(first < Step::SESSIONS, Action::Close { session: first }),
            Step::MOVE => move_to(first, self.x, self.y, self.fourth),
            Step::LOST => ranged(first < Step::SESSIONS, Action::Lost { session: first }),
            Step::CLOCK => ranged(
                self.first <= Term::LAST_TIME,
                Action::Clock { time: self.first },
            ),
            Step::LEND => ranged(
                first < Step::USERS
                    && second < Step::USERS
                    && third < Step::ROLES
                    && self.fourth <= Term::LAST_TIME,
                Action::Lend {
                    lender: first,
                    borrower: second,
                    role: third,
                    until: self.fourth,
                },
            ),
            Step::RECALL => ranged(
                first < Step::USERS && second < Step::USERS && third < Step::ROLES,
                Action::Recall {
                    lender: first,
                    borrower: second,
                    role: third,
                },
            ),
            _ => Action::Malformed,
        }
    }
}

// `by` stands before an administrative step alone, with a session in range.
fn acted_by(by: Acting, action: Action) -> Action
    ensures { result ≡ acted_by by action }
{
    match by {
        Acting::Nobody => action,
        Acting::InSession(session) => ranged(
            session < Step::SESSIONS as u64 && is_administrative(action),
            action,
        ),
    }
}

// The action where its numbers are in range.
fn ranged(in_range: bool, action: Action) -> Action
    ensures { result ≡ ranged in_range action }
{
    if in_range {
        return action;
    }
    Action::Malformed
}

fn move_to(session: usize, x: i64, y: i64, error: u64) -> Action
    ensures { result ≡ move_of session x y error }
{
    if session < Step::SESSIONS && on_grid(x) && on_grid(y) && error <= Point::LAST_ERROR as u64 {
        let point = Point {
            x: x as i32,
            y: y as i32,
            error: error as u32,
        };
        return Action::Move { session, point };
    }
    Action::Malformed
}
