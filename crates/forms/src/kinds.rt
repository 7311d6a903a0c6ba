// The kinds of numbers that stand in a line, each with its syntax and its range.
ghost use Rattle.std.specs.Prelude.{◌≡◌, true};
ghost use Rattle.forms.specs.Kinds.{kind_of, syntax_of, in_range, is_slot, IsPlain, amount_of};

use crate::numbers::Number;
use sets::Set;

#[derive(Clone, Copy)]
pub enum Syntax {
    // A byte of the form itself.
    Literal,
    Number,
    // A number other than 0.
    Positive,
    Signed,
    // yyyymmdd
    Date,
    // hhmm
    TimeOfDay,
}

#[derive(Clone, Copy)]
pub struct Kind {
    pub syntax: Syntax,
    pub low: u64,
    pub high: u64,
}

impl Kind {
    // The marks before the small letters, as sets of bytes: ! # $ % & ' * + , . / < > ? and, counted from 64, @ [ ] ^ _ `
    pub const MARKS_BELOW_64: u64 = (1 << 33)
        | (31 << 35)
        | (7 << 42)
        | (3 << 46)
        | (1 << 60)
        | (3 << 62);

    pub const MARKS_FROM_64: u64 = 1 | (1 << 27) | (15 << 29);
}

// What a byte of a form stands for.
#[tactic(auto, unfolding(crate::specs::Kinds::kind_of, crate::specs::Kinds::lookup))]
pub(crate) fn kind_of(mark: u8) -> Kind
    ensures { result ≡ kind_of mark }
{
    match mark {
        b'#' => ranged(Syntax::Number, 1, 128),
        b'@' => ranged(Syntax::Number, 0, 63),
        b'$' | b'%' | b'&' | b'*' => ranged(Syntax::Number, 0, 31),
        b'~' => ranged(Syntax::Number, 0, 3_155_759_999),
        b'+' => ranged(Syntax::Signed, 0, 1_000_000),
        b'^' => ranged(Syntax::Number, 1, 100_000),
        b'>' => ranged(Syntax::Number, 0, 64),
        b'<' => ranged(Syntax::Number, 0, 32),
        b'!' => ranged(Syntax::Number, 1, 7),
        b',' => ranged(Syntax::Number, 1, 12),
        b'\'' => ranged(Syntax::Number, 1, 5),
        b'/' => ranged(Syntax::Number, 1, 1000),
        b'.' => ranged(Syntax::Date, 20_000_000, 20_999_999),
        b'[' => ranged(Syntax::TimeOfDay, 0, 2359),
        b']' => ranged(Syntax::TimeOfDay, 1, 2400),
        b'?' => ranged(Syntax::Number, 0, 9_999_999_999),
        b'_' => ranged(Syntax::Signed, 0, 9_999_999_999),
        b'`' => ranged(Syntax::Positive, 1, 1000),
        _ => ranged(Syntax::Literal, 0, 0),
    }
}

// The number is in the range of its mark (else 11).
#[tactic(auto, unfolding(crate::specs::Kinds::in_range, crate::specs::Kinds::in_range_by))]
pub(crate) fn is_in_range(mark: u8, value: u64) -> bool
    ensures { result ≡ in_range mark value }
{
    let kind = kind_of(mark);
    let is_between = (kind.low..=kind.high).contains(&value);
    match kind.syntax {
        Syntax::Literal => true,
        Syntax::Number | Syntax::Positive | Syntax::Date => is_between,
        Syntax::Signed => amount(value) <= kind.high,
        Syntax::TimeOfDay => is_between && value % 100 <= 59,
    }
}

// A byte of a form is a mark, or stands for itself. Most are letters: of these and what follows them `~` alone is a mark.
pub(crate) fn is_slot(mark: u8) -> bool
    ensures { result ≡ is_slot mark }
{
    if b'a' <= mark {
        return mark == b'~';
    }
    if mark < 64 {
        return Kind::MARKS_BELOW_64.contains(mark as usize);
    }
    Kind::MARKS_FROM_64.contains((mark - 64) as usize)
}

// Most marks stand before `+` or between `.` and `[`, and all of these are plain numbers'.
pub(crate) fn is_plain(mark: u8) -> bool
    ensures { result ≡ true → is_slot mark ≡ true → IsPlain mark }
{
    (mark < b'+') | ((b'.' < mark) & (mark < b'['))
}

// How the number of a mark is written.
#[tactic(auto, using(crate::proofs::Marks::number_marks), unfolding(crate::specs::Kinds::kind_of, crate::specs::Kinds::lookup))]
pub(crate) fn syntax_of(mark: u8) -> Syntax
    requires { is_slot mark ≡ true }
    ensures { result ≡ syntax_of mark }
{
    match mark {
        b'+' | b'_' => Syntax::Signed,
        b'.' => Syntax::Date,
        b'[' | b']' => Syntax::TimeOfDay,
        b'`' => Syntax::Positive,
        _ => Syntax::Number,
    }
}

// A value without its minus.
#[tactic(auto, unfolding(crate::specs::Kinds::amount_of))]
fn amount(value: u64) -> u64
    ensures { result ≡ amount_of value }
{
    if Number::MINUS < value {
        return value - Number::MINUS;
    }
    value
}

fn ranged(syntax: Syntax, low: u64, high: u64) -> Kind
    ensures { result ≡ record { syntax = syntax; low = low; high = high } }
{
    Kind { syntax, low, high }
}
