// The lines of a saved state.
ghost use Rattle.std.specs.Prelude.{◌≡◌, ◌+◌, ◌*◌, ◌<◌};
ghost use Rattle.state_text.specs.Entries.{entry_of, form_of, values_of, rank, follows};
ghost use Rattle.state_text.specs.Causes.{Ranged};
ghost use Rattle.state_text.specs.Parts.{next_of};

// The forms of a saved state, a line each; a mark stands for a number of its kind.
pub(crate) const FORMS: [u8; 118] = *b"(now ~)\n\
(assigned @ $)\n\
(granted $ %)\n\
(loan @ @ $ ~)\n\
(open & @)\n\
(place & + +)\n\
(active & $)\n\
(did * % @)\n\
(place & + + `)\n";

// Where each form starts, and where the last one ends.
pub(crate) const STARTS: [usize; 10] = [0, 8, 23, 37, 52, 63, 77, 90, 102, 118];

// A line, by its form and its numbers. A form's number is its place in the table.
#[derive(Clone, Copy, Debug, PartialEq, Eq)]
pub enum Entry {
    // (now t)
    Now(u64),
    // (assigned u r)
    Assigned(u64, u64),
    // (granted r p)
    Granted(u64, u64),
    // (loan u v r t)
    Loan(u64, u64, u64, u64),
    // (open s u)
    Open(u64, u64),
    // (place s x y)
    Place(u64, i32, i32),
    // (active s r)
    Active(u64, u64),
    // (did o p u)
    Did(u64, u64, u64),
    // (place s x y e)
    PlaceWithError(u64, i32, i32, u64),
}

impl Entry {
    // The line that a form says with its values.
    #[tactic(auto, unfolding(crate::specs::Entries::entry_of))]
    pub(crate) fn of_values(form: usize, values: &[u64; 6]) -> Entry
        ensures { result ≡ entry_of form values.now }
    {
        match form {
            0 => Entry::Now(values[0]),
            1 => Entry::Assigned(values[0], values[1]),
            2 => Entry::Granted(values[0], values[1]),
            3 => Entry::Loan(values[0], values[1], values[2], values[3]),
            4 => Entry::Open(values[0], values[1]),
            5 => Entry::Place(
                values[0],
                forms::coordinate(values[1]),
                forms::coordinate(values[2]),
            ),
            6 => Entry::Active(values[0], values[1]),
            7 => Entry::Did(values[0], values[1], values[2]),
            _ => Entry::PlaceWithError(
                values[0],
                forms::coordinate(values[1]),
                forms::coordinate(values[2]),
                values[3],
            ),
        }
    }

    // The form of a line.
    #[tactic(auto, unfolding(crate::specs::Entries::form_of))]
    pub(crate) fn form(self) -> usize
        ensures { result ≡ form_of self }
    {
        match self {
            Entry::Now(..) => 0,
            Entry::Assigned(..) => 1,
            Entry::Granted(..) => 2,
            Entry::Loan(..) => 3,
            Entry::Open(..) => 4,
            Entry::Place(..) => 5,
            Entry::Active(..) => 6,
            Entry::Did(..) => 7,
            Entry::PlaceWithError(..) => 8,
        }
    }

    // The values of a line.
    #[tactic(auto, unfolding(crate::specs::Entries::values_of))]
    pub(crate) fn values(self) -> [u64; 6]
        ensures { result ≡ values_of self }
    {
        match self {
            Entry::Now(time) => [time, 0, 0, 0, 0, 0],
            Entry::Assigned(user, role) => [user, role, 0, 0, 0, 0],
            Entry::Granted(role, permission) => [role, permission, 0, 0, 0, 0],
            Entry::Loan(lender, borrower, role, until) => [lender, borrower, role, until, 0, 0],
            Entry::Open(session, user) => [session, user, 0, 0, 0, 0],
            Entry::Place(session, x, y) => {
                [
                    session,
                    forms::signed_code(x),
                    forms::signed_code(y),
                    0,
                    0,
                    0,
                ]
            }
            Entry::Active(session, role) => [session, role, 0, 0, 0, 0],
            Entry::Did(object, permission, user) => [object, permission, user, 0, 0, 0],
            Entry::PlaceWithError(session, x, y, error) => {
                [
                    session,
                    forms::signed_code(x),
                    forms::signed_code(y),
                    error,
                    0,
                    0,
                ]
            }
        }
    }

    // Where a line in range stands among all lines that can be.
    #[tactic(auto, unfolding(crate::specs::Entries::rank))]
    pub(crate) fn rank(self) -> u64
        requires { Ranged self }
        ensures { result ≡ rank self }
    {
        match self {
            Entry::Now(..) => 0,
            Entry::Assigned(user, role) => column_rank(1, user, 32, role),
            Entry::Granted(role, permission) => column_rank(2049, role, 32, permission),
            Entry::Loan(lender, borrower, role, _) => {
                column_rank(3073, column_rank(0, lender, 64, borrower), 32, role)
            }
            Entry::Open(session, _) => column_rank(134145, session, 34, 0),
            Entry::Place(session, ..) | Entry::PlaceWithError(session, ..) => {
                column_rank(134145, session, 34, 1)
            }
            Entry::Active(session, role) => column_rank(134145, session, 34, 2 + role),
            Entry::Did(object, permission, user) => {
                column_rank(135233, column_rank(0, object, 32, permission), 64, user)
            }
        }
    }
}

// The rank of a column of a row, after the lines before these rows.
fn column_rank(start: u64, row: u64, width: u64, column: u64) -> u64
    requires { (start < 200000) × (row < 4096) × (width < 65) × (column < 64) }
    ensures { result ≡ start + (row * width + column) }
{
    start + (row * width + column)
}

// A line of this rank may stand after a line of the last one: the first line is `now`, a later one stands past the last.
pub(crate) fn follows(last: Option<u64>, rank: u64) -> bool
    ensures { result ≡ follows (next_of last) rank }
{
    match last {
        None => rank == 0,
        Some(last) => last < rank,
    }
}
