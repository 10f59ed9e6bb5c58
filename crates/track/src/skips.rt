// Days that surely are none of a rule's: passed at once, since a rule may have none for centuries.
ghost use Rattle.std.specs.Prelude.{true, ◌≡◌, ◌<◌, ◌≤◌, length};
ghost use Rattle.rule.specs.Day.{day_at};
ghost use Rattle.rule.specs.Gives.{end_day};
ghost use Rattle.matcher.specs.Inner.Layout.{row_size};
ghost use Rattle.matcher.specs.Inner.Walk.{Asked, picks_on_by};
ghost use Rattle.track.specs.Inner.Skips.{Without, Between, step_at, step_on, month_on, MonthsUnset, to_month_end, days_ahead, is_carried};
ghost use Rattle.track.specs.Inner.Places.{Unset};
ghost use Rattle.track.specs.Inner.Steps.{Holding};

use super::Cursor;
use matcher::Terms;
use rule::{Day, Frequency};

// Periods from this one on that are out of step.
fn periods_out(terms: Terms, period: u32) -> u32
    ensures { Without (step_at terms) period result × (result ≤ end_day) }
{
    let interval = terms.interval;
    if interval <= 1 {
        return 0;
    }
    let start = terms.period;
    if period <= start {
        return 0;
    }
    let over = (period - start) as u64 % interval;
    if over == 0 {
        return 0;
    }
    let left = interval - over;
    left.min(3067672) as u32
}

pub(crate) fn to_month_end(x: Day) -> u32
    requires { (x ≡ day_at x.number) × (x.number < end_day) }
    ensures { result ≡ to_month_end x }
{
    x.monthdays + 1 - x.monthday
}

#[tactic(auto, unfolding(crate::specs::Inner::Skips::days_ahead))]
fn days_ahead(frequency: Frequency, first: u32, n: u32, x: Day) -> u32
    requires { ((first < 7) × ((1 ≤ n) × (n ≤ end_day))) × ((x ≡ day_at x.number) × (x.number < end_day)) }
    ensures { result ≡ days_ahead frequency first n x }
{
    match frequency {
        Frequency::Daily => n,
        Frequency::Weekly => 7 * n - (x.number + 12 - first) % 7,
        Frequency::Monthly => to_month_end(x),
        Frequency::Yearly => x.yeardays - x.yearday,
    }
}

// Days from this one on that are out of step.
fn days_out(terms: Terms, x: Day) -> u32
    requires { Asked terms row_size x }
    ensures { Without (step_on terms) x.number result }
{
    let frequency = terms.frequency;
    let period = matcher::periods::period_of(frequency, terms.first, x);
    let n = periods_out(terms, period);
    if n == 0 {
        return 0;
    }
    days_ahead(frequency, terms.first, n, x)
}

// Days from this one on to the end of its period, where that is out of step.
fn period_out(terms: Terms, x: Day) -> u32
    requires { Asked terms row_size x }
    ensures { Without (step_on terms) x.number result }
{
    if matcher::walk::in_step(terms, x) {
        return 0;
    }
    super::places::to_period_end(terms, x)
}

// The first month from this one on that the rule has: 13 where the year has none any more.
fn next_month(flags: &[bool], month: u32) -> u32
    requires { (length flags.now ≡ row_size) × (month ≤ 12) }
    ensures { MonthsUnset flags.now month result }
{
    for next in month..13 {
        if flags[next as usize] {
            return next;
        }
    }
    13
}

// Days from this one on of months that the rule has not, as far as its year goes.
fn month_out(flags: &[bool], x: Day) -> u32
    requires { (length flags.now ≡ row_size) × ((x ≡ day_at x.number) × (x.number < end_day)) }
    ensures { Without (month_on flags.now) x.number result }
{
    let month = x.month;
    let next = next_month(flags, month);
    if next <= month {
        return 0;
    }
    calendar::month::month_start(x.year, next) - x.yearday
}

// The positions of a year are counted once, where it begins: it is passed whole or not at all.
#[tactic(auto, unfolding(crate::specs::Inner::Skips::is_carried))]
fn is_carried(frequency: Frequency, placed: bool) -> bool
    ensures { result ≡ is_carried frequency placed }
{
    frequency == Frequency::Yearly && placed
}

// Days from this one on that surely are none of the rule's: 0 where nothing is known. How many is left open: it only saves time.
pub fn skip(terms: Terms, flags: &[bool], x: Day) -> u32
    requires { Asked terms (length flags.now) x }
    ensures { Without (picks_on_by terms flags.now) x.number result }
{
    if is_carried(terms.frequency, terms.placed) {
        return period_out(terms, x);
    }
    let out = days_out(terms, x);
    if 0 < out {
        return out;
    }
    month_out(flags, x)
}

// Days to the next one of the month that stays, or to the month that follows.
fn to_next(terms: Terms, flags: &[bool], x: Day) -> u32
    requires { Asked terms (length flags.now) x }
    ensures { Between (picks_on_by terms flags.now) x.number result }
{
    let end = to_month_end(x);
    for k in 1..end {
        let y = super::leaps::in_month(x, k);
        if matcher::flags::stays(flags, terms.inyear, y) {
            return k;
        }
    }
    end
}

// Looked for only up to the first day of a period that stays: asked on each day, it would cost more than it saves.
fn skip_early(terms: Terms, flags: &[bool], c: Cursor) -> u32
    requires { Asked terms (length flags.now) c.day }
    ensures { Without (picks_on_by terms flags.now) c.day.number result }
{
    let seen = c.seen;
    if 0 < seen {
        return 0;
    }
    skip(terms, flags, c.day)
}

// Days to go on by for a rule with set positions: a period with too few days for them is passed whole.
fn place_gap(terms: Terms, flags: &[bool], need: u32, c: Cursor) -> u32
    requires { (terms.placed ≡ true) × (Holding terms flags.now (length flags.now) c × Unset flags.now need) }
    ensures { Between (picks_on_by terms flags.now) c.day.number result }
{
    let x = c.day;
    let frequency = terms.frequency;
    let most = super::places::most_days(frequency);
    if most < need {
        return 3067672 - x.number;
    }
    let n = skip_early(terms, flags, c);
    if 0 < n {
        return n;
    }
    let total = c.total;
    if total < need {
        return super::places::to_period_end(terms, x);
    }
    1
}

// Days to go on by from a day that is none of the rule's: those between are not either.
pub(crate) fn gap(terms: Terms, flags: &[bool], need: u32, c: Cursor) -> u32
    requires { Holding terms flags.now (length flags.now) c × Unset flags.now need }
    ensures { Between (picks_on_by terms flags.now) c.day.number result }
{
    let placed = terms.placed;
    if placed {
        return place_gap(terms, flags, need, c);
    }
    let x = c.day;
    let n = skip(terms, flags, x);
    if 0 < n {
        return n;
    }
    to_next(terms, flags, x)
}
