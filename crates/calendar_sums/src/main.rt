// Sums over all days of 2000 to 2099: of each part of a date, and of the days on which sample terms hold. Each day has a weight,
// and its moment moves through the minutes of the day, so that no exchange of days or minutes goes unseen. docs/DECISIONS.md
// says with which calendar the sums agree.
#![tactic(auto)]

ghost use Rattle.std.specs.Prelude.{◌<◌};

use calendar::days::{date_of, day_of_date, weekday_of};
use calendar::{Date, Term};
use std::io;

fn main(rt: HostRuntime) -> io::Result<()> {
    line(&rt, "weekday", sum(weekday_of))?;
    line(&rt, "year", sum_of_dates(|date| date.year))?;
    line(&rt, "month", sum_of_dates(|date| date.month))?;
    line(&rt, "day", sum_of_dates(|date| date.day))?;
    line(&rt, "there and back", sum_of_dates(day_again))?;
    for (label, term) in samples() {
        line(&rt, label, days_of(term))?;
    }
    Ok(())
}

fn line(rt: &impl Print, label: &str, n: u64) -> io::Result<()> {
    println!(rt; "{label} {n}")
}

// The sum over all days of what each gives.
fn sum<F: Fn(u64) -> u64>(of_day: F) -> u64
    requires { (day : _) → day < 36525 → F.pre of_day day }
{
    let mut total: u64 = 0;
    for day in 0..Date::DAYS {
        total = total.wrapping_add(of_day(day) % 1000000 * (day % 997 + 1));
    }
    total
}

fn sum_of_dates<F: Fn(Date) -> u64>(of_date: F) -> u64
    requires { F.IsAlwaysCallable of_date }
{
    sum(|day| match date_of(day) {
        Some(date) => of_date(date),
        None => 0,
    })
}

// The day that the date's number gives.
fn day_again(date: Date) -> u64 {
    let yyyymmdd = date.year % 10000 * 10000 + date.month % 100 * 100 + date.day % 100;
    day_of_date(yyyymmdd).unwrap_or(0)
}

// The days on which the term holds.
fn days_of(term: Term) -> u64 {
    sum(|day| u64::from(term.holds(day * 86400 + day * 61 % 1440 * 60 + day % 60)))
}

// Terms, each with the words that a rule names it by.
fn samples() -> [(&'static str, Term); 13] {
    [
        (
            "dates 20040229 20961231",
            Term::Dates {
                from: 20040229,
                to: 20961231,
            },
        ),
        ("week 1 5 0700 1900", week(1, 5, 700, 1900)),
        ("week 6 2 0000 2400", week(6, 2, 0, 2400)),
        ("week 5 5 2200 0600", week(5, 5, 2200, 600)),
        ("week 6 1 2200 0600", week(6, 1, 2200, 600)),
        ("months 4 9", Term::Months { first: 4, last: 9 }),
        ("months 11 2", Term::Months { first: 11, last: 2 }),
        (
            "nth 2 1",
            Term::Nth {
                ordinal: 2,
                weekday: 1,
            },
        ),
        (
            "nth 5 7",
            Term::Nth {
                ordinal: 5,
                weekday: 7,
            },
        ),
        (
            "every 14 20000229",
            Term::Every {
                interval: 14,
                from: 20000229,
            },
        ),
        (
            "every 1000 20991231",
            Term::Every {
                interval: 1000,
                from: 20991231,
            },
        ),
        (
            "dates 20010229 20991231",
            Term::Dates {
                from: 20010229,
                to: 20991231,
            },
        ),
        ("months 0 12", Term::Months { first: 0, last: 12 }),
    ]
}

fn week(first: u32, last: u32, start: u32, end: u32) -> Term {
    Term::Week {
        first,
        last,
        start,
        end,
    }
}
