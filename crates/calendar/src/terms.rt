// Terms: when a rule of time holds. A term has the numbers of its text: dates as yyyymmdd, times of day as hhmm.
ghost use Rattle.std.specs.Prelude.{◌≡◌, true, ◌≤◌};
ghost use Rattle.calendar.specs.Terms.{from_to, minute_from_to, minute_at, weekday_before, counted_weekday, ordinal_of, multiple_from, at_moment, term_holds, is_year, is_time_of_day, term_in_range, term_sound};

use crate::days::{Date, date_within, day_number, day_of, is_date, minute_of, weekday_of};

#[derive(Clone, Copy, Debug, PartialEq, Eq)]
pub enum Term {
    // dates A B
    Dates {
        from: u32,
        to: u32,
    },
    // week a b h k
    Week {
        first: u32,
        last: u32,
        start: u32,
        end: u32,
    },
    // months a b
    Months {
        first: u32,
        last: u32,
    },
    // nth k d
    Nth {
        ordinal: u32,
        weekday: u32,
    },
    // every n A
    Every {
        interval: u32,
        from: u32,
    },
}

impl Term {
    // The last second of 2099.
    pub const LAST_TIME: u64 = 3_155_759_999;

    // The term holds at time t. One that is out of range or unsound never does, and none does past the range of times.
    #[tactic(auto, unfolding(crate::specs::Terms::term_holds))]
    pub fn holds(self, t: u64) -> bool
        ensures { result ≡ term_holds self t }
    {
        self.in_range() && self.is_sound() && t <= Term::LAST_TIME && self.at_moment(t)
    }

    // Each number of the term is in its range (else 11).
    #[tactic(auto, unfolding(crate::specs::Terms::term_in_range))]
    pub fn in_range(self) -> bool
        ensures { result ≡ term_in_range self }
    {
        match self {
            Term::Dates { from, to } => is_year(from as u64 / 10000) && is_year(to as u64 / 10000),
            Term::Week {
                first,
                last,
                start,
                end,
            } => {
                (1..=7).contains(&first)
                    && (1..=7).contains(&last)
                    && is_time_of_day(0, 2359, start)
                    && is_time_of_day(1, 2400, end)
            }
            Term::Months { first, last } => (1..=12).contains(&first) && (1..=12).contains(&last),
            Term::Nth { ordinal, weekday } => (1..=5).contains(&ordinal)
                && (1..=7).contains(&weekday),
            Term::Every { interval, from } => (1..=1000).contains(&interval)
                && is_year(from as u64 / 10000),
        }
    }

    // Its dates exist and are in order, and its times of day differ (else 14).
    #[tactic(auto, unfolding(crate::specs::Terms::term_sound))]
    pub fn is_sound(self) -> bool
        ensures { result ≡ term_sound self }
    {
        match self {
            Term::Dates { from, to } => { is_date(from as u64) && is_date(to as u64) && from <= to }
            Term::Week { start, end, .. } => start != end,
            Term::Months { .. } | Term::Nth { .. } => true,
            Term::Every { from, .. } => is_date(from as u64),
        }
    }

    // What the term says of time t, for a term and a time that are accepted.
    #[tactic(auto, unfolding(crate::specs::Terms::at_moment, crate::specs::Terms::term_sound, crate::specs::Terms::term_in_range))]
    fn at_moment(self, t: u64) -> bool
        requires { (term_in_range self ≡ true) × (term_sound self ≡ true) × (t ≤ 3155759999) }
        ensures { result ≡ at_moment self t }
    {
        let day = day_of(t);
        match self {
            Term::Dates { from, to } => {
                (day_number(from as u64)..=day_number(to as u64)).contains(&day)
            }
            Term::Week {
                first,
                last,
                start,
                end,
            } => {
                let from = minute_at(start);
                let until = minute_at(end);
                from_to(first as u64, last as u64, counted_weekday(from, until, t))
                    && minute_from_to(from, until, minute_of(t))
            }
            Term::Months { first, last } => {
                from_to(first as u64, last as u64, date_within(day).month)
            }
            Term::Nth { ordinal, weekday } => {
                weekday_of(day) == weekday as u64
                    && ordinal_of(date_within(day).day) == ordinal as u64
            }
            Term::Every { interval, from } => {
                multiple_from(interval as u64, day_number(from as u64), day)
            }
        }
    }
}

// x from a to b, going past the end where a > b.
#[tactic(auto, unfolding(crate::specs::Terms::from_to))]
fn from_to(a: u64, b: u64, x: u64) -> bool
    ensures { result ≡ from_to a b x }
{
    if a <= b {
        (a..=b).contains(&x)
    } else {
        a <= x || x <= b
    }
}

// A minute from start up to but not end; where start > end, at least start or below end.
#[tactic(auto, unfolding(crate::specs::Terms::minute_from_to))]
fn minute_from_to(start: u64, end: u64, minute: u64) -> bool
    ensures { result ≡ minute_from_to start end minute }
{
    if start <= end {
        (start..end).contains(&minute)
    } else {
        start <= minute || minute < end
    }
}

// The minute of the day that hhmm writes.
fn minute_at(hhmm: u32) -> u64
    ensures { result ≡ minute_at hhmm }
{
    let hhmm = hhmm as u64;
    hhmm / 100 * 60 + hhmm % 100
}

// The weekday that time t counts for: a shift that goes past midnight belongs to the day it begins.
#[tactic(auto, unfolding(crate::specs::Terms::counted_weekday))]
fn counted_weekday(start: u64, end: u64, t: u64) -> u64
    ensures { result ≡ counted_weekday start end t }
{
    let weekday = weekday_of(day_of(t));
    if end < start && minute_of(t) < end {
        weekday_before(weekday)
    } else {
        weekday
    }
}

// Sunday is before Monday.
fn weekday_before(weekday: u64) -> u64
    requires { 1 ≤ weekday }
    ensures { result ≡ weekday_before weekday }
{
    if weekday == 1 { 7 } else { weekday - 1 }
}

// How many times its weekday has come in the month, up to a day of the month.
fn ordinal_of(day: u64) -> u64
    ensures { result ≡ ordinal_of day }
{
    day.saturating_sub(1) / 7 + 1
}

// The day is at least the first, and a multiple of the interval past it.
#[tactic(auto, unfolding(crate::specs::Terms::multiple_from))]
fn multiple_from(interval: u64, first: u64, day: u64) -> bool
    requires { 1 ≤ interval }
    ensures { result ≡ multiple_from interval first day }
{
    first <= day && (day - first) % interval == 0
}

fn is_year(year: u64) -> bool
    ensures { result ≡ is_year year }
{
    (Date::FIRST_YEAR..=Date::LAST_YEAR).contains(&year)
}

// hhmm from low to high, minutes to 59.
fn is_time_of_day(low: u32, high: u32, hhmm: u32) -> bool
    ensures { result ≡ is_time_of_day low high hhmm }
{
    (low..=high).contains(&hhmm) && hhmm % 100 <= 59
}
