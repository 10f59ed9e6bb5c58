// A rule's whole row of flags, with the values of the start that it implies, and its terms.
ghost use Rattle.std.specs.Prelude.{◌≡◌, ◌<◌, ◌≤◌, length, eqb};
ghost use Rattle.gregorian.specs.Days.{day_count};
ghost use Rattle.rule.specs.Implied.{days_from, month_days_from, months_from};
ghost use Rattle.rule.specs.Inner.Read.{written, Sized};
ghost use Rattle.rule.specs.Inner.Bounds.{InCalendar};
ghost use Rattle.matcher.specs.Inner.Flags.{Row};
ghost use Rattle.matcher.specs.Inner.Marks.{mark_months, mark_dates, mark_weekdays, mark_places, mark_row};
ghost use Rattle.matcher.specs.Inner.Rows.{implies_day, implies_date, implies_month, yearly, Termed};

use super::Terms;
use super::layout::{DATES, DATES_BACK, POSITIONS, POSITIONS_BACK, WEEKDAYS};
use rule::{Day, Frequency, Rule};

#[tactic(auto, unfolding(crate::specs::Inner::Rows::implies_day))]
fn implies_day(frequency: Frequency) -> bool
    ensures { result ≡ implies_day frequency }
{
    frequency == Frequency::Weekly
}

#[tactic(auto, unfolding(crate::specs::Inner::Rows::implies_date))]
fn implies_date(frequency: Frequency, days: usize) -> bool
    ensures { result ≡ implies_date frequency (eqb days 0) }
{
    matches!(frequency, Frequency::Monthly | Frequency::Yearly) && days == 0
}

#[tactic(auto, unfolding(crate::specs::Inner::Rows::implies_month))]
fn implies_month(frequency: Frequency, days: usize, dates: usize) -> bool
    ensures { result ≡ implies_month frequency (eqb days 0) (eqb dates 0) }
{
    frequency == Frequency::Yearly && (0 < dates || days == 0)
}

fn mark_months(rule: &Rule, start: Day, flags: &mut [bool])
    requires { Sized rule.now × Row (length flags.old) }
    ensures { flags.new ≡ mark_months flags.old (months_from (written rule.now) start) }
{
    let n = rule.monthcount;
    if 0 < n {
        super::marks::mark_each(&rule.months[..n], flags, 0, DATES);
    } else if implies_month(rule.frequency, rule.days, rule.datecount) {
        super::marks::mark(flags, 0, DATES, u64::from(start.month));
    } else {
        super::marks::mark_all(flags, 0, DATES);
    }
}

fn mark_dates(rule: &Rule, start: Day, flags: &mut [bool])
    requires { Sized rule.now × Row (length flags.old) }
    ensures { flags.new ≡ mark_dates flags.old (month_days_from (written rule.now) start) }
{
    let n = rule.datecount;
    if 0 < n {
        super::marks::mark_places(&rule.dates[..n], flags, DATES, DATES_BACK, 32);
    } else if implies_date(rule.frequency, rule.days) {
        super::marks::mark(flags, DATES, 32, u64::from(start.monthday));
        super::marks::mark(flags, DATES_BACK, 32, 0);
    } else {
        super::marks::mark_all(flags, DATES, 32);
    }
}

fn mark_weekdays(rule: &Rule, start: Day, flags: &mut [bool])
    requires { Sized rule.now × Row (length flags.old) }
    ensures { flags.new ≡ mark_weekdays flags.old (days_from (written rule.now) start) }
{
    let n = rule.days;
    if 0 < n {
        super::marks::mark_days(&rule.weekdays[..n], &rule.nths[..n], flags);
    } else if implies_day(rule.frequency) {
        super::marks::mark(flags, WEEKDAYS, 7, u64::from(start.weekday));
    } else {
        super::marks::mark_all(flags, WEEKDAYS, 7);
    }
}

// The row of a rule whose event starts on a day; before, no flag is set.
pub fn mark_row(rule: &Rule, start: Day, flags: &mut [bool])
    requires { Sized rule.now × Row (length flags.old) }
    ensures { flags.new ≡ mark_row flags.old (written rule.now) start }
{
    mark_months(rule, start, flags);
    mark_dates(rule, start, flags);
    mark_weekdays(rule, start, flags);
    let n = rule.positioncount;
    super::marks::mark_places(&rule.positions[..n], flags, POSITIONS, POSITIONS_BACK, 367);
}

#[tactic(auto, unfolding(crate::specs::Inner::Rows::yearly))]
fn counts_in_year(frequency: Frequency, months: usize) -> bool
    ensures { result ≡ yearly frequency (eqb months 0) }
{
    frequency == Frequency::Yearly && months == 0
}

pub fn terms_of(rule: &Rule, start: Day) -> Terms
    requires { Sized rule.now × (InCalendar start × (start.number < day_count)) }
    ensures { Termed (written rule.now) start result }
{
    Terms {
        frequency: rule.frequency,
        interval: rule.interval,
        first: rule.first,
        inyear: counts_in_year(rule.frequency, rule.monthcount),
        placed: 0 < rule.positioncount,
        period: super::periods::period_of(rule.frequency, rule.first, start),
    }
}
