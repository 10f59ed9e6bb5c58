// The days of a rule in a month, from the row that is kept for its kind.
ghost use Rattle.std.specs.Prelude.{if◌then◌else◌, true, false, ◌≡◌, ◌+◌, ◌≤◌, length};
ghost use Rattle.rule.specs.declared.Frequency.TheVariants.{Monthly};
ghost use Rattle.rule.specs.Inner.Bounds.{InCalendar};
ghost use Rattle.matcher.specs.Inner.Layout.{row_size};
ghost use Rattle.matcher.specs.Inner.Walk.{Asked};
ghost use Rattle.months.specs.Inner.Rows.{answer_at, Kept};
ghost use Rattle.track.specs.Inner.Runs.{marked};
ghost use Rattle.track.specs.Inner.Plain.{InMonth};
ghost use Rattle.track.specs.Inner.Alike.{is_whole, WeekdaysSet, Alike, MarkedMonth, first_weekday};

use matcher::Terms;
use matcher::layout::WEEKDAYS;
use rule::{Day, Frequency};

fn has_all_weekdays(flags: &[bool]) -> bool
    requires { length flags.now ≡ row_size }
    ensures { (result ≡ true → WeekdaysSet flags.now 7) × (WeekdaysSet flags.now 7 → result ≡ true) }
{
    flags[WEEKDAYS..WEEKDAYS + 7].iter().all(|set| *set)
}

// No weekday's place in the year is asked for.
fn counts_in_months(inyear: bool, flags: &[bool]) -> bool
    requires { length flags.now ≡ row_size }
    ensures { (result ≡ true → inyear ≡ true → WeekdaysSet flags.now 7) × ((inyear ≡ true → WeekdaysSet flags.now 7) → result ≡ true) }
{
    !inyear || has_all_weekdays(flags)
}

#[tactic(auto, unfolding(crate::specs::Inner::Alike::is_whole))]
fn is_whole(frequency: Frequency) -> bool
    ensures { result ≡ is_whole frequency }
{
    matches!(frequency, Frequency::Monthly | Frequency::Yearly)
}

// What the rule has of a month that is set and in step depends only on the month's kind.
pub fn is_alike(terms: Terms, flags: &[bool]) -> bool
    requires { length flags.now ≡ row_size }
    ensures { (result ≡ true → Alike terms flags.now) × (Alike terms flags.now → result ≡ true) }
{
    counts_in_months(terms.inyear, flags) && (terms.interval == 1 || is_whole(terms.frequency))
}

// A function of its own: with the `if` in the loop, the last hits of a month had a branch each, and runs of months took 7 % longer.
fn choose(yes: bool, value: bool, other: bool) -> bool
    ensures { result ≡ (if yes then value else other) }
{
    if yes { value } else { other }
}

// Each hit gets its answer or stays: no branch, so that many are laid at once.
fn lay(rows: &[bool], at: usize, hits: &mut [bool], value: bool)
    requires { at + length hits.old ≤ length rows.now }
    ensures { hits.new ≡ marked (answer_at rows.now at) value 0 hits.old }
{
    for (k, hit) in hits.iter_mut().enumerate() {
        *hit = choose(rows[at + k], value, *hit);
    }
}

// The weekday of the first day of a day's month.
pub fn first_weekday(x: Day) -> u32
    requires { InCalendar x }
    ensures { result ≡ first_weekday x }
{
    (x.weekday + 36 - x.monthday) % 7
}

// The days of one month from x on, as many as there are hits.
pub(crate) fn mark_alike(
    terms: Terms,
    flags: &[bool],
    rows: &mut [bool],
    x: Day,
    hits: &mut [bool],
    value: bool,
)
    requires { (Alike terms flags.now × (terms.placed ≡ true → terms.frequency ≡ Monthly)) × (Kept terms.placed flags.now rows.old × (Asked terms (length flags.now) x × InMonth x (length hits.old))) }
    ensures { MarkedMonth terms flags.now x value hits.old hits.new rows.new }
{
    if !matcher::flags::on_month(flags, x) {
        return;
    }
    if !matcher::walk::in_step(terms, x) {
        return;
    }
    let weekday = first_weekday(x);
    let at = months::kinds::keep(flags, terms.placed, weekday, x.monthdays, rows);
    let before = x.monthday - 1;
    lay(rows, at + before as usize, hits, value);
}
