// Printing for the programs: dates, date-times and weekdays.
#![tactic(auto)]

use gregorian::{Date, Moment};
use std::fmt;

// A date, as YYYY-MM-DD.
#[derive(Clone, Copy)]
pub struct Iso(pub Date);

impl fmt::Display for Iso {
    fn fmt<W: fmt::Write>(&self, f: &mut fmt::Formatter<W>) -> fmt::Result {
        let Date { year, month, day } = self.0;
        write!(f, "{year:04}-{month:02}-{day:02}")
    }
}

// Local seconds, as YYYY-MM-DDTHH:MM:SS, or on which side of the calendar they lie.
#[derive(Clone, Copy)]
pub struct Local(pub i64);

impl fmt::Display for Local {
    fn fmt<W: fmt::Write>(&self, f: &mut fmt::Formatter<W>) -> fmt::Result {
        let t = self.0;
        if t < -11676096000 {
            return f.write_str("before 1600");
        }
        if 253402300799 < t {
            return f.write_str("after 9999");
        }
        let Moment { day, second } = calendar::seconds::moment_of(t);
        let date = Iso(calendar::days::date_of(day));
        write!(
            f,
            "{date}T{:02}:{:02}:{:02}",
            second / 3600,
            second / 60 % 60,
            second % 60
        )
    }
}

// The two letters of a weekday: 0 is Monday.
#[derive(Clone, Copy)]
pub struct Weekday(pub u32);

impl fmt::Display for Weekday {
    fn fmt<W: fmt::Write>(&self, f: &mut fmt::Formatter<W>) -> fmt::Result {
        f.write_str(match self.0 {
            0 => "mo",
            1 => "tu",
            2 => "we",
            3 => "th",
            4 => "fr",
            5 => "sa",
            _ => "su",
        })
    }
}
