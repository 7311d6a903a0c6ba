// How long a state's text is, from the members that its sets have; no line of a set is written for it.
ghost use Rattle.std.specs.Prelude.{◌≡◌, [], ◌∷◌, map, ◌≤◌, ◌<◌, length};
ghost use Rattle.forms.specs.Writing.{capped};
ghost use Rattle.state_text.specs.Entries.{line_text};
ghost use Rattle.state_text.specs.Saving.{over, loan_line, place_lines, saved_text};
ghost use Rattle.state_text.specs.Parts.{width, Measured, SetMeasured, RowsMeasured, history_lines, open_lines, session_parts, session_parts_at};
ghost use Rattle.state_text.specs.declared.entries.Entry.TheVariants.{Now};

use crate::entries::Entry;
use crate::writing::{loan_line, place_line, write_line};
use enforcement::{Session, State};
use loans::Loan;
use places::Position;
use sets::Set;

// The bytes of a state's text: the space that a write of it takes.
pub fn saved_length(state: State) -> usize
    ensures { result ≡ length (saved_text state) }
{
    let time = time_length(state.time);
    let roles = rows_length(13, &state.assigned);
    let permissions = rows_length(12, &state.granted);
    let lent = loans_length(state.loans.running());
    let opened = sessions_length(&state.sessions, &state.active);
    time + roles + permissions + lent + opened + history_length(&state.history)
}

fn time_length(time: u64) -> usize
    ensures { Measured (Now time ∷ []) 100 result }
{
    line_length(Entry::Now(time))
}

// The lines of the sets of numbers below 32 that a list holds, where a line has so many bytes beside its two numbers.
fn rows_length(bytes: usize, words: &[u32]) -> usize
    requires { (bytes ≤ 20) × (length words.now ≤ 64) }
    ensures { RowsMeasured bytes words.now result }
{
    let mut total: usize = 0;
    for (i, word) in words.iter().enumerate() {
        total += set_length(bytes + width(i), u64::from(*word));
    }
    total
}

fn loans_length(loans: &[Loan]) -> usize
    requires { length loans.now ≤ 32 }
    ensures { Measured (map loan_line loans.now) 3200 result }
{
    let mut total: usize = 0;
    for loan in loans {
        total += loan_length(*loan);
    }
    total
}

fn loan_length(loan: Loan) -> usize
    ensures { Measured (loan_line loan ∷ []) 100 result }
{
    line_length(loan_line(loan))
}

fn sessions_length(sessions: &[Session; 32], active: &[u32; 32]) -> usize
    ensures { Measured (over 32 (session_parts_at sessions.now active.now)) 131072 result }
{
    let mut total: usize = 0;
    for (i, session) in sessions.iter().enumerate() {
        total += session_length(i, session, active[i]);
    }
    total
}

fn session_length(i: usize, session: &Session, roles: u32) -> usize
    requires { i < 32 }
    ensures { Measured (session_parts i session.now roles) 4096 result }
{
    let opened = open_length(i as u64, session.is_open, u64::from(session.user));
    let placed = place_length(i as u64, session.position);
    opened + placed + set_length(11 + width(i), u64::from(roles))
}

#[tactic(auto, unfolding(crate::specs::Parts::open_lines))]
fn open_length(i: u64, is_open: bool, user: u64) -> usize
    ensures { Measured (open_lines i is_open user) 100 result }
{
    if is_open {
        return line_length(Entry::Open(i, user));
    }
    0
}

fn place_length(i: u64, position: Position) -> usize
    ensures { Measured (place_lines i position) 100 result }
{
    match position {
        Position::Unknown => 0,
        Position::Known(point) => line_length(place_line(i, point)),
    }
}

// The users of each object and permission.
fn history_length(words: &[u64; 1024]) -> usize
    ensures { Measured (over 1024 (history_lines words.now)) 2097152 result }
{
    let mut total: usize = 0;
    for (i, users) in words.iter().enumerate() {
        total += set_length(9 + width(i / 32) + width(i % 32), *users);
    }
    total
}

// The lines of a set's members, where a line has so many bytes beside the member's digits: two, and one of a member below 10.
fn set_length(bytes: usize, set: u64) -> usize
    requires { bytes ≤ 30 }
    ensures { SetMeasured bytes set result }
{
    let members = set.count() as usize;
    let short = (set & 1023).count() as usize;
    members * (bytes + 2) - short
}

// The digits of a number below 100.
#[tactic(auto, unfolding(crate::specs::Parts::width))]
fn width(number: usize) -> usize
    ensures { (result ≡ width number) × (result ≤ 2) }
{
    if number < 10 { 1 } else { 2 }
}

// A line written into no space is measured.
fn line_length(entry: Entry) -> usize
    ensures { result ≡ capped (length (line_text entry)) }
{
    write_line(entry, &mut [0u8; 1], 0)
}
