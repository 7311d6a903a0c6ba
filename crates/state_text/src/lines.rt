// What a line puts into a state, and what it rests on.
ghost use Rattle.std.specs.Prelude.{◌≡◌, true, ◌<◌, length};
ghost use Rattle.loans.specs.Meant.{pushed};
ghost use Rattle.enforcement.specs.States.{held_roles};
ghost use Rattle.enforcement.specs.Steps.{put};
ghost use Rattle.state_text.specs.Entries.{with_line, rests, has_room, has_room_in};
ghost use Rattle.state_text.specs.Causes.{Ranged};
ghost use Rattle.state_text.specs.Parts.{AsStored, BeforeLoans};

use crate::entries::Entry;
use enforcement::State;
use loans::{Loan, Loans, has_role};
use places::{Point, Position};
use sets::Set;

// Puts a line in range into the state that the lines before it leave, and into the roles that each user holds. The state is changed where it
// stands, and is not handed over at each line.
#[tactic(auto, unfolding(crate::specs::Entries::with_line))]
pub(crate) fn put_line(state: &mut State, held: &mut [u32; 64], entry: Entry)
    requires { Ranged entry × AsStored state.old × (has_room state.old entry ≡ true) × BeforeLoans state.old entry × (held_roles state.old ≡ held.old) }
    ensures { (state.new ≡ with_line state.old entry) × (held_roles state.new ≡ held.new) }
{
    match entry {
        Entry::Now(time) => state.time = time,
        Entry::Assigned(user, role) => {
            put_member(&mut state.assigned, user, role);
            put_member(held, user, role);
        }
        Entry::Granted(role, permission) => put_member(&mut state.granted, role, permission),
        Entry::Loan(lender, borrower, role, until) => {
            push(
                &mut state.loans,
                Loan {
                    until: until as u32,
                    lender: lender as u8,
                    borrower: borrower as u8,
                    role: role as u8,
                },
            );
            put_member(held, borrower, role);
        }
        Entry::Open(session, user) => {
            let opened = &mut state.sessions[session as usize];
            opened.is_open = true;
            opened.user = user as u32;
        }
        Entry::Place(session, x, y) => {
            state.sessions[session as usize].position = Position::Known(Point { x, y, error: 0 });
        }
        Entry::Active(session, role) => put_member(&mut state.active, session, role),
        Entry::Did(object, permission, user) => {
            let users = &mut state.history[(object * 32 + permission) as usize];
            *users = users.with(user as usize);
        }
        Entry::PlaceWithError(session, x, y, error) => {
            state.sessions[session as usize].position = Position::Known(Point {
                x,
                y,
                error: error as u32,
            });
        }
    }
}

// A number put into the set of a row.
fn put_member(rows: &mut [u32], row: u64, number: u64)
    requires { row < length rows.old }
    ensures { rows.new ≡ put 32 rows.old row number }
{
    let i = row as usize;
    rows[i] = rows[i].with(number as usize);
}

// A loan after the others.
#[tactic(auto, unfolding(loans::specs::Meant::pushed))]
fn push(loans: &mut Loans, loan: Loan)
    requires { loans.old.count < 32 }
    ensures { loans.new ≡ pushed loans.old loan }
{
    loans.entries[loans.count] = loan;
    loans.count += 1;
}

// A place or a role rests on its session's line, and a role on its being held; a loan on the lender's assignment, and on a borrower who does
// not hold the role and an end later than now.
#[tactic(auto, unfolding(crate::specs::Entries::rests))]
pub(crate) fn rests(entry: Entry, state: &State, held: &[u32; 64]) -> bool
    requires { Ranged entry × (held_roles state.now ≡ held.now) }
    ensures { result ≡ rests state.now entry }
{
    match entry {
        Entry::Now(..)
        | Entry::Assigned(..)
        | Entry::Granted(..)
        | Entry::Open(..)
        | Entry::Did(..) => true,
        Entry::Loan(lender, borrower, role, until) => {
            has_role(&state.assigned, lender as usize, role as usize)
                && !has_role(held, borrower as usize, role as usize)
                && state.time < until
        }
        Entry::Place(session, ..) | Entry::PlaceWithError(session, ..) => {
            state.sessions[session as usize].is_open
        }
        Entry::Active(session, role) => {
            let session = &state.sessions[session as usize];
            session.is_open && has_role(held, session.user as usize, role as usize)
        }
    }
}

// A loan has room where fewer than 32 run.
#[tactic(auto, unfolding(crate::specs::Entries::form_of))]
pub(crate) fn has_room(entry: Entry, loans: &Loans) -> bool
    ensures { result ≡ has_room_in loans.now entry }
{
    !(matches!(entry, Entry::Loan(..)) && loans.is_full())
}
