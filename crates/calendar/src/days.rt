// Days, times of day and dates. A time is in seconds since 2000-01-01 00:00, and that day is day 0.
ghost use Rattle.std.specs.Prelude.{◌≡◌, true, ◌+◌, ◌≤◌, ◌<◌};
ghost use Rattle.calendar.specs.Days.{day_of, minute_of, weekday_of, leap_year, year_start, from_march_before, common_start, month_start, month_end, month_of, year_of, date_of, date_found, is_day_of_month, is_date, day_number, day_of_date};

#[derive(Clone, Copy, Debug, PartialEq, Eq)]
pub struct Date {
    pub year: u64,
    pub month: u64,
    pub day: u64,
}

impl Date {
    pub const FIRST_YEAR: u64 = 2000;

    pub const LAST_YEAR: u64 = 2099;

    // The days of these years.
    pub const DAYS: u64 = 36525;
}

// The day of a time.
pub fn day_of(t: u64) -> u64
    ensures { result ≡ day_of t }
{
    t / 86400
}

// The minute of the day of a time.
pub fn minute_of(t: u64) -> u64
    ensures { result ≡ minute_of t }
{
    t % 86400 / 60
}

// The weekday of a day, 1 (Monday) to 7. The remainder comes first, so that no sum can wrap.
pub fn weekday_of(day: u64) -> u64
    ensures { result ≡ weekday_of day }
{
    (day % 7 + 5) % 7 + 1
}

// The date of a day, where it lies in the years 2000 to 2099.
#[tactic(auto, unfolding(crate::specs::Days::date_found))]
pub fn date_of(day: u64) -> Option<Date>
    ensures { result ≡ date_found day }
{
    (day < Date::DAYS).then(|| date_within(day))
}

// The number yyyymmdd is a date of the years 2000 to 2099.
#[tactic(auto, unfolding(crate::specs::Days::is_date))]
pub fn is_date(yyyymmdd: u64) -> bool
    ensures { result ≡ is_date yyyymmdd }
{
    let year = yyyymmdd / 10000;
    (Date::FIRST_YEAR..=Date::LAST_YEAR).contains(&year)
        && is_day_of_month(leap_year(year), yyyymmdd / 100 % 100, yyyymmdd % 100)
}

// The day of the date yyyymmdd, where there is such a date.
#[tactic(auto, unfolding(crate::specs::Days::day_of_date))]
pub fn day_of_date(yyyymmdd: u64) -> Option<u64>
    ensures { result ≡ day_of_date yyyymmdd }
{
    is_date(yyyymmdd).then(|| day_number(yyyymmdd))
}

// The day of a number yyyymmdd that is a date.
#[tactic(auto, using(crate::proofs::Dates::date_facts), unfolding(crate::specs::Days::day_number))]
pub(crate) fn day_number(yyyymmdd: u64) -> u64
    requires { is_date yyyymmdd ≡ true }
    ensures { result ≡ day_number yyyymmdd }
{
    let year = yyyymmdd / 10000;
    let before = month_start(leap_year(year), yyyymmdd / 100 % 100);
    year_start(year - Date::FIRST_YEAR) + before + (yyyymmdd % 100 - 1)
}

// The date of a day of the years 2000 to 2099.
#[tactic(auto, using(crate::proofs::Dates::day_facts), unfolding(crate::specs::Days::date_of, crate::specs::Days::date_in))]
pub(crate) fn date_within(day: u64) -> Date
    requires { day < 36525 }
    ensures { result ≡ date_of day }
{
    let since = year_of(day);
    let year = Date::FIRST_YEAR + since;
    let leap = leap_year(year);
    let rest = day - year_start(since);
    let month = month_of(leap, rest);
    let before = month_start(leap, month);
    Date {
        year,
        month,
        day: rest - before + 1,
    }
}

#[tactic(auto, unfolding(crate::specs::Days::leap_year))]
fn leap_year(year: u64) -> bool
    ensures { result ≡ leap_year year }
{
    year % 4 == 0 && (year % 100 != 0 || year % 400 == 0)
}

// The days before the year 2000 + since.
#[tactic(auto, using(crate::proofs::Years::year_formulas))]
fn year_start(since: u64) -> u64
    requires { since < 100 }
    ensures { result ≡ year_start since }
{
    365 * since + (since + 3) / 4
}

// The year of a day, counted from 2000: 1461 days are four years, the first of them a leap year.
#[tactic(auto, using(crate::proofs::Years::year_formulas))]
fn year_of(day: u64) -> u64
    requires { day < 36525 }
    ensures { result ≡ year_of day }
{
    4 * (day / 1461) + (day % 1461).saturating_sub(1) / 365
}

// The days from the March of the year before to a month of a common year. January and February count with the year before.
fn from_march_before(month: u64) -> u64
    requires { month ≤ 12 }
    ensures { result ≡ from_march_before month }
{
    let from_march = (month + 9) % 12;
    let days = (153 * from_march + 2) / 5;
    if month < 3 { days } else { 365 + days }
}

// The days before a month of a common year.
#[tactic(auto, unfolding(crate::specs::Days::common_start))]
fn common_start(month: u64) -> u64
    requires { (1 ≤ month) × (month ≤ 12) }
    ensures { result ≡ common_start month }
{
    from_march_before(month) - from_march_before(1)
}

// The days of a year before a month.
#[tactic(auto, using(crate::proofs::Months::common_small), unfolding(crate::specs::Days::month_start))]
fn month_start(leap: bool, month: u64) -> u64
    requires { (1 ≤ month) × (month ≤ 12) }
    ensures { result ≡ month_start leap month }
{
    let before = common_start(month);
    if leap && 2 < month {
        before + 1
    } else {
        before
    }
}

// The days of a year up to the end of a month.
#[tactic(auto, unfolding(crate::specs::Days::month_end))]
fn month_end(leap: bool, month: u64) -> u64
    requires { (1 ≤ month) × (month ≤ 12) }
    ensures { result ≡ month_end leap month }
{
    if month < 12 {
        month_start(leap, month + 1)
    } else if leap {
        366
    } else {
        365
    }
}

// The month of a day of a year, which is counted from 0.
#[tactic(auto, using(crate::proofs::Months::month_turns), unfolding(crate::specs::Days::month_of))]
fn month_of(leap: bool, rest: u64) -> u64
    ensures { result ≡ month_of leap rest }
{
    // Tried: `(2..=12).rev().find(..)`, whose proof did not close.
    let mut month = 12;
    while rest < month_start(leap, month) {
        month -= 1;
    }
    month
}

// There is such a month, and it has such a day.
#[tactic(auto, using(crate::proofs::Months::start_small), unfolding(crate::specs::Days::is_day_of_month))]
fn is_day_of_month(leap: bool, month: u64, day: u64) -> bool
    requires { day < 100 }
    ensures { result ≡ is_day_of_month leap month day }
{
    (1..=12).contains(&month)
        && 1 <= day
        && month_start(leap, month) + day <= month_end(leap, month)
}
