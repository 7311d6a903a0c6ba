// A step as the rules see it.
use places::Point;

// A step whose numbers are in range, or one that 20 refuses.
#[derive(Clone, Copy, Debug, PartialEq, Eq)]
pub enum Action {
    Malformed,
    Assign {
        user: usize,
        role: usize,
    },
    Withdraw {
        user: usize,
        role: usize,
    },
    Grant {
        role: usize,
        permission: usize,
    },
    Take {
        role: usize,
        permission: usize,
    },
    Open {
        session: usize,
        user: usize,
    },
    Activate {
        session: usize,
        role: usize,
    },
    Deactivate {
        session: usize,
        role: usize,
    },
    Access {
        session: usize,
        permission: usize,
        object: usize,
    },
    Finish {
        object: usize,
    },
    Close {
        session: usize,
    },
    Move {
        session: usize,
        point: Point,
    },
    Lost {
        session: usize,
    },
    Clock {
        time: u64,
    },
    Lend {
        lender: usize,
        borrower: usize,
        role: usize,
        until: u64,
    },
    Recall {
        lender: usize,
        borrower: usize,
        role: usize,
    },
}
