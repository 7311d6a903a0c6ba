// The checksum that is printed.
use enforcement::State;
use steps::Step;

#[derive(Clone, Copy)]
pub(crate) struct Checksum {
    pub(crate) sum: u64,
}

impl Checksum {
    pub(crate) fn new() -> Checksum {
        Checksum { sum: 0 }
    }

    pub(crate) fn add(&mut self, entry: u64) {
        self.sum = (self.sum % 1099511627776 * 65599 + entry % 1099511627776) % 1099511627776;
    }

    pub(crate) fn add_all<T: Copy + Into<u64>>(&mut self, entries: &[T]) {
        for entry in entries {
            self.add((*entry).into());
        }
    }

    pub(crate) fn add_steps(&mut self, steps: &[Step]) {
        for step in steps {
            self.add(step.kind % 64 + step.first % 4294967296 + step.second % 64);
        }
    }

    // All but the sessions' positions.
    fn add_state(&mut self, state: &State) {
        self.add(state.time);
        self.add_all(&state.assigned);
        self.add(state.loans.count as u64);
        for loan in &state.loans.entries {
            self.add_all(&[loan.lender, loan.borrower, loan.role]);
            self.add(u64::from(loan.until));
        }
        for (i, session) in state.sessions.iter().enumerate() {
            self.add_all(&[session.user, state.granted[i], state.active[i]]);
        }
        self.add_all(&state.history);
    }
}

pub(crate) fn of_all(entries: &[u64]) -> u64 {
    let mut checksum = Checksum::new();
    checksum.add_all(entries);
    checksum.sum
}

pub(crate) fn of_state(state: &State) -> u64 {
    let mut checksum = Checksum::new();
    checksum.add_state(state);
    checksum.sum
}
