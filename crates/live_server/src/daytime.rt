//! The line that daytime tells (RFC 867).

ghost use Rattle.std.specs.Prelude.{◌≡◌, ◌+◌, ◌-◌, ◌*◌, ◌/◌, ◌<◌, ◌≤◌, ◌^◌, IfOk};
ghost use Rattle.std.specs.String.{string_bytes};
ghost use Rattle.live_server.specs.DaytimeText.{date_of, day_in_year, daytime_text, month_of, turns_at, year_in};

use std::alloc::{AllocError, Global};
use std::fmt;
use std::fmt::{Display, Formatter, Write};

/// How many days lie between 1 March of the year 0 and 1 January 1970.
const FROM_MARCH: u64 = 719_468;

/// The days of 400 years.
const ERA: u64 = 146_097;

/// The microseconds of a day.
const DAY: u64 = 86_400_000_000;

/// A day of the Gregorian calendar.
#[derive(Clone, Copy, Debug, PartialEq, Eq)]
pub struct Date {
    pub year: u64,
    pub month: u64,
    pub day: u64,
}

/// A number below 100, as two digits.
#[derive(Clone, Copy)]
struct Two(u64);

impl Display for Two {
    ghost use Rattle.std.specs.Prelude.{Some};
    ghost use Rattle.live_server.specs.DaytimeText.{two_digits};

    ghost output = { λ t. Some (two_digits t.0) };

    fn fmt<W: Write>(&self, f: &mut Formatter<W>) -> fmt::Result {
        let tens = self.0 / 10;
        let ones = self.0 % 10;
        write!(f, "{tens}{ones}")
    }
}

impl Display for Date {
    ghost use Rattle.std.specs.Prelude.{Some};
    ghost use Rattle.live_server.specs.DaytimeText.{date_text};

    ghost output = { λ d. Some (date_text d) };

    fn fmt<W: Write>(&self, f: &mut Formatter<W>) -> fmt::Result {
        let year = self.year;
        let month = Two(self.month);
        let day = Two(self.day);
        write!(f, "{year}-{month}-{day}")
    }
}

/// A second of a day.
#[derive(Clone, Copy)]
struct Clock(u64);

impl Display for Clock {
    ghost use Rattle.std.specs.Prelude.{Some};
    ghost use Rattle.live_server.specs.DaytimeText.{time_text};

    ghost output = { λ t. Some (time_text t.0) };

    fn fmt<W: Write>(&self, f: &mut Formatter<W>) -> fmt::Result {
        let hours = Two(self.0 / 3600);
        let minutes = Two(self.0 / 60 % 60);
        let seconds = Two(self.0 % 60);
        write!(f, "{hours}:{minutes}:{seconds}")
    }
}

/// The line of a number of microseconds since 1970.
#[tactic(auto, unfolding(crate::specs::DaytimeText::daytime_text))]
pub(crate) fn daytime_text(alloc: Global, time: u64) -> Result<String, AllocError>
    ensures { IfOk result (λ text. string_bytes text ≡ daytime_text time) }
{
    let date = date_of(time / DAY);
    let clock = Clock(time / 1_000_000 % 86_400);
    format!(in alloc; "{date} {clock} UTC\r\n")
}

/// The date so many days after 1 January 1970.
#[tactic(auto, unfolding(crate::specs::DaytimeText::date_of))]
fn date_of(days: u64) -> Date
    requires { days < 2 ^ 32 }
    ensures { result ≡ date_of days }
{
    let day = (days + FROM_MARCH) % ERA;
    let rest = day_in_year(day);
    let month = (5 * rest + 2) / 153;
    Date {
        year: 400 * ((days + FROM_MARCH) / ERA) + year_in(day) + turns_at(month),
        month: month_of(month),
        day: rest.saturating_sub((153 * month + 2) / 5) + 1,
    }
}

/// The number of a month from January on, where 0 is March.
fn month_of(month: u64) -> u64
    ensures { result ≡ month_of month }
{
    if month < 10 { month + 3 } else { month - 9 }
}

/// How many years have begun in January by that month.
fn turns_at(month: u64) -> u64
    ensures is { result ≡ turns_at month }
    ensures bound { result ≤ 1 }
{
    if month < 10 { 0 } else { 1 }
}

/// Which year of 400 a day is in. Years begin in March.
fn year_in(day: u64) -> u64
    requires { day < 146097 }
    ensures is { result ≡ year_in day }
    ensures bound { result ≤ 401 }
{
    ((day - day / 1460 + day / 36_524) - day / 146_096) / 365
}

/// Which day of its year it is.
fn day_in_year(day: u64) -> u64
    requires { day < 146097 }
    ensures is { result ≡ day_in_year day }
    ensures bound { result ≤ day }
{
    let year = year_in(day);
    day.saturating_sub(365 * year + year / 4 - year / 100)
}
