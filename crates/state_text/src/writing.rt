// A state as a saved text. Every function writes its part at a place and returns where it ends; bytes past the end of the lent space are
// left out.
ghost use Rattle.std.specs.Prelude.{◌≡◌, ℕ, map, length};
ghost use Rattle.forms.specs.Writing.{Wrote};
ghost use Rattle.forms.specs.Refusals.{numbered, write_number};
ghost use Rattle.state_text.specs.Entries.{line_text};
ghost use Rattle.state_text.specs.Saving.{over, loan_line, place_line, place_lines, lines_text, saved_text, written_state, lent_state};
ghost use Rattle.state_text.specs.Parts.{set_lines, row_lines, history_lines, open_lines, session_parts, session_parts_at};
ghost use Rattle.state_text.specs.declared.entries.Entry.{Entry};

use crate::entries::{Entry, FORMS, STARTS};
use crate::measuring::saved_length;
use enforcement::{Session, State};
use forms::WriteRefusal;
use loans::Loan;
use places::{Point, Position};
use sets::Set;

// The text of a state that 40 does not refuse, or the refusal; then every byte stays.
pub fn write_state(state: State, out: &mut [u8]) -> Result<usize, WriteRefusal>
    ensures { (numbered write_number result ≡ written_state state out.old) × (out.new ≡ lent_state state out.old) }
{
    if !state.is_accepted() {
        return Err(WriteRefusal::NotAccepted);
    }
    if out.len() < saved_length(state) {
        return Err(WriteRefusal::NoRoom);
    }
    Ok(write_lines(&state, out, 0))
}

// All lines, in their order.
fn write_lines(state: &State, out: &mut [u8], at: usize) -> usize
    ensures { Wrote out.old at (saved_text state.now) result out.new }
{
    let after_time = write_line(Entry::Now(state.time), out, at);
    let after_assigned = write_rows(&state.assigned, Entry::Assigned, out, after_time);
    let after_granted = write_rows(&state.granted, Entry::Granted, out, after_assigned);
    let after_loans = write_loans(state.loans.running(), out, after_granted);
    let after_sessions = write_sessions(&state.sessions, &state.active, out, after_loans);
    write_history(&state.history, out, after_sessions)
}

// The lines of the sets of numbers below 32 that a list holds, by their places and members.
fn write_rows<F: Fn(u64, u64) -> Entry + Drop>(
    words: &[u32],
    line: F,
    out: &mut [u8],
    at: usize,
) -> usize
    requires { F.IsAlwaysCallable line }
    ensures { (entry : ℕ → ℕ → Entry) → ((i member : ℕ) (written : Entry) → F.post line i member written → written ≡ entry i member) → Wrote out.old at (lines_text (over (length words.now) (row_lines entry words.now))) result out.new }
{
    let mut place = at;
    for (i, word) in words.iter().enumerate() {
        let row = i as u64;
        place = write_set(u64::from(*word), |member| line(row, member), out, place);
    }
    place
}

fn write_loans(loans: &[Loan], out: &mut [u8], at: usize) -> usize
    ensures { Wrote out.old at (lines_text (map loan_line loans.now)) result out.new }
{
    let mut place = at;
    for loan in loans {
        place = write_line(loan_line(*loan), out, place);
    }
    place
}

pub(crate) fn loan_line(loan: Loan) -> Entry
    ensures { result ≡ loan_line loan }
{
    Entry::Loan(
        u64::from(loan.lender),
        u64::from(loan.borrower),
        u64::from(loan.role),
        u64::from(loan.until),
    )
}

fn write_sessions(sessions: &[Session; 32], active: &[u32; 32], out: &mut [u8], at: usize) -> usize
    ensures { Wrote out.old at (lines_text (over 32 (session_parts_at sessions.now active.now))) result out.new }
{
    let mut place = at;
    for (i, session) in sessions.iter().enumerate() {
        place = write_session(i as u64, session, active[i], out, place);
    }
    place
}

fn write_session(i: u64, session: &Session, roles: u32, out: &mut [u8], at: usize) -> usize
    ensures { Wrote out.old at (lines_text (session_parts i session.now roles)) result out.new }
{
    let after_open = write_open(i, session.is_open, u64::from(session.user), out, at);
    let after_place = write_place(i, session.position, out, after_open);
    write_set(
        u64::from(roles),
        |role| Entry::Active(i, role),
        out,
        after_place,
    )
}

#[tactic(auto, unfolding(crate::specs::Parts::open_lines))]
fn write_open(i: u64, is_open: bool, user: u64, out: &mut [u8], at: usize) -> usize
    ensures { Wrote out.old at (lines_text (open_lines i is_open user)) result out.new }
{
    if is_open {
        return write_line(Entry::Open(i, user), out, at);
    }
    at
}

fn write_place(i: u64, position: Position, out: &mut [u8], at: usize) -> usize
    ensures { Wrote out.old at (lines_text (place_lines i position)) result out.new }
{
    match position {
        Position::Unknown => at,
        Position::Known(point) => write_line(place_line(i, point), out, at),
    }
}

// An error of 0 is left out.
#[tactic(auto, unfolding(crate::specs::Saving::place_line))]
pub(crate) fn place_line(i: u64, point: Point) -> Entry
    ensures { result ≡ place_line i point }
{
    if point.error == 0 {
        return Entry::Place(i, point.x, point.y);
    }
    Entry::PlaceWithError(i, point.x, point.y, u64::from(point.error))
}

// The users of each object and permission.
fn write_history(words: &[u64; 1024], out: &mut [u8], at: usize) -> usize
    ensures { Wrote out.old at (lines_text (over 1024 (history_lines words.now))) result out.new }
{
    let mut place = at;
    for (i, users) in words.iter().enumerate() {
        let object = (i / 32) as u64;
        let permission = (i % 32) as u64;
        place = write_set(
            *users,
            |user| Entry::Did(object, permission, user),
            out,
            place,
        );
    }
    place
}

// The lines of a set's members: none where it is empty.
fn write_set<F: Fn(u64) -> Entry + Drop>(set: u64, line: F, out: &mut [u8], at: usize) -> usize
    requires { F.IsAlwaysCallable line }
    ensures { (entry : ℕ → Entry) → ((member : ℕ) (written : Entry) → F.post line member written → written ≡ entry member) → Wrote out.old at (lines_text (set_lines entry set)) result out.new }
{
    if set.is_empty() {
        return at;
    }
    let mut place = at;
    for member in 0..64 {
        if set.contains(member) {
            place = write_line(line(member as u64), out, place);
        }
    }
    place
}

pub(crate) fn write_line(entry: Entry, out: &mut [u8], at: usize) -> usize
    ensures { Wrote out.old at (line_text entry) result out.new }
{
    forms::write_line(&FORMS, &STARTS, entry.form(), &entry.values(), out, at)
}
