// Request 2026-01: roles on loan until a set time, and which roles are held with them.
#![tactic(auto)]

ghost use Rattle.std.specs.Prelude.{◌≡◌, ◌≤◌, ◌+◌, length, leb};
ghost use Rattle.rules.specs.Families.{has_role};
ghost use Rattle.loans.specs.Loans.{key, running, no_loans, stored, is_named, loan_in_range, loans_accepted, some_loan, kept_loans, inserted, held_with};
ghost use Rattle.loans.specs.Meant.{meant, pushed, pushed_all};

use calendar::Term;
use sets::Set;
use steps::Step;

// A role that one user is assigned and another has until a time. It has 8 bytes: a state goes by value at the gate's public doors.
#[derive(Clone, Copy, Debug, PartialEq, Eq)]
pub struct Loan {
    pub until: u32,
    pub lender: u8,
    pub borrower: u8,
    pub role: u8,
}

// The first `count` entries, in ascending order of lender, borrower and role. Entries past them are not looked at.
#[derive(Clone, Copy, Debug)]
pub struct Loans {
    pub entries: [Loan; 32],
    pub count: usize,
}

// Which loans are meant.
#[derive(Clone, Copy, Debug, PartialEq, Eq)]
pub enum Which {
    // of a role to a user
    Borrowed {
        borrower: usize,
        role: usize,
    },
    // of a role by a user
    LentOut {
        lender: usize,
        role: usize,
    },
    // of a role by one user to another
    Named {
        lender: usize,
        borrower: usize,
        role: usize,
    },
    // all but that one
    Others {
        lender: usize,
        borrower: usize,
        role: usize,
    },
    // that run past a time
    Longer {
        time: u64,
    },
    // with a key below, and above
    Before {
        key: usize,
    },
    After {
        key: usize,
    },
}

impl Loans {
    pub const MOST: usize = 32;

    pub fn none() -> Loans
        ensures { result ≡ no_loans }
    {
        Loans {
            entries: [Loan {
                until: 0,
                lender: 0,
                borrower: 0,
                role: 0,
            }; 32],
            count: 0,
        }
    }

    // The loans that run; with a count past the last entry, all entries.
    pub fn running(&self) -> &[Loan]
        ensures { result.now ≡ running self.now }
    {
        &self.entries[..self.count.min(self.entries.len())]
    }

    // 40 does not refuse them: at most 32, each in range, in ascending order, at most one for the same lender, borrower and role.
    #[tactic(auto, using(crate::proofs::Turns::accepted_turns), unfolding(crate::specs::Loans::loans_accepted))]
    pub fn is_accepted(&self) -> bool
        ensures { result ≡ loans_accepted self.now }
    {
        if Loans::MOST < self.count {
            return false;
        }
        // The least key that the next loan may have.
        let mut least = 0;
        for &loan in self.running() {
            let key = key_of(loan);
            if !loan_in_range(loan) || key < least {
                return false;
            }
            least = key + 1;
        }
        true
    }

    // 32 loans run.
    pub fn is_full(&self) -> bool
        ensures { result ≡ leb 32 self.now.count }
    {
        Loans::MOST <= self.count
    }

    // One of them is meant.
    pub fn has_some(&self, which: Which) -> bool
        ensures { result ≡ some_loan (meant which) (running self.now) }
    {
        self.running().iter().any(|loan| is_meant(*loan, which))
    }

    // Those that are meant.
    #[tactic(auto, using(crate::proofs::Storing::stored_rules))]
    pub fn kept(&self, which: Which) -> Loans
        ensures { result ≡ stored (kept_loans (meant which) (running self.now)) }
    {
        let mut kept = Loans::none();
        kept.gather(self.running(), which);
        kept
    }

    // With one more, in its place.
    #[tactic(auto, using(crate::proofs::Storing::stored_rules), unfolding(crate::specs::Meant::pushed))]
    pub fn with(&self, loan: Loan) -> Loans
        ensures { result ≡ stored (inserted loan (running self.now)) }
    {
        let key = key_of(loan);
        let mut more = self.kept(Which::Before { key });
        more.push(loan);
        more.gather(self.running(), Which::After { key });
        more
    }

    // The roles that users hold: those that they are assigned, and those that they have on loan.
    #[tactic(auto, using(crate::proofs::Turns::held_turns))]
    pub fn held(&self, assigned: &[u32; 64]) -> [u32; 64]
        ensures { result ≡ held_with assigned.now (running self.now) }
    {
        let mut held = *assigned;
        for loan in self.running() {
            // By its index: with `get_mut` the proof did not close.
            let user = loan.borrower as usize;
            if user < Step::USERS {
                held[user] = held[user].with(loan.role as usize);
            }
        }
        held
    }

    // A user holds a role: he is assigned it or has it on loan. Where he is assigned it or there is no loan, no array of held roles is made.
    #[tactic(auto, using(crate::proofs::Holding::held_rules))]
    pub fn is_held(&self, assigned: &[u32; 64], user: usize, role: usize) -> bool
        ensures { result ≡ has_role (held_with assigned.now (running self.now)) user role }
    {
        has_role(assigned, user, role)
            || (self.count != 0 && has_role(&self.held(assigned), user, role))
    }

    // Puts those of other loans that are meant after these.
    #[tactic(auto, using(crate::proofs::Turns::gather_turns), unfolding(crate::specs::Meant::pushed))]
    fn gather(&mut self, others: &[Loan], which: Which)
        requires { self.old.count + length others.now ≤ 96 }
        ensures { self.new ≡ pushed_all self.old (kept_loans (meant which) others.now) }
    {
        for loan in others {
            if is_meant(*loan, which) {
                self.push(*loan);
            }
        }
    }

    // Puts one more after these; a place past the last is not there.
    #[tactic(auto, using(crate::proofs::Turns::entries_past), unfolding(crate::specs::Meant::pushed))]
    fn push(&mut self, loan: Loan)
        requires { self.old.count ≤ 96 }
        ensures { self.new ≡ pushed self.old loan }
    {
        if self.count < self.entries.len() {
            self.entries[self.count] = loan;
        }
        self.count += 1;
    }
}

// A loan until a time has ended at another that is not before it.
pub fn has_ended(until: u64, time: u64) -> bool
    ensures { result ≡ leb until time }
{
    until <= time
}

// A role is in the set of a user; one past the last has none.
#[tactic(auto, using(crate::proofs::Holding::no_roles_past))]
pub fn has_role(roles: &[u32; 64], user: usize, role: usize) -> bool
    ensures { result ≡ has_role roles.now user role }
{
    roles.get(user).is_some_and(|roles| roles.contains(role))
}

#[tactic(auto, unfolding(crate::specs::Meant::meant))]
fn is_meant(loan: Loan, which: Which) -> bool
    ensures { result ≡ meant which loan }
{
    match which {
        Which::Borrowed { borrower, role } => {
            loan.borrower as usize == borrower && loan.role as usize == role
        }
        Which::LentOut { lender, role } => {
            loan.lender as usize == lender && loan.role as usize == role
        }
        Which::Named {
            lender,
            borrower,
            role,
        } => is_named(loan, lender, borrower, role),
        Which::Others {
            lender,
            borrower,
            role,
        } => !is_named(loan, lender, borrower, role),
        Which::Longer { time } => time < loan.until as u64,
        Which::Before { key } => key_of(loan) < key,
        Which::After { key } => key < key_of(loan),
    }
}

fn is_named(loan: Loan, lender: usize, borrower: usize, role: usize) -> bool
    ensures { result ≡ is_named lender borrower role loan }
{
    loan.lender as usize == lender
        && loan.borrower as usize == borrower
        && loan.role as usize == role
}

// What loans are ordered by.
#[tactic(auto, unfolding(crate::specs::Loans::key))]
fn key_of(loan: Loan) -> usize
    ensures { result ≡ key loan }
{
    (loan.lender as usize * 64 + loan.borrower as usize) * 32 + loan.role as usize
}

#[tactic(auto, unfolding(crate::specs::Loans::loan_in_range))]
fn loan_in_range(loan: Loan) -> bool
    ensures { result ≡ loan_in_range loan }
{
    (loan.lender as usize) < Step::USERS
        && (loan.borrower as usize) < Step::USERS
        && (loan.role as usize) < Step::ROLES
        && loan.until as u64 <= Term::LAST_TIME
}
