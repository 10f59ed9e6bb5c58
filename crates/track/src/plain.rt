// The days of a rule without set positions in a month, one by one: within a month no day is made anew.
ghost use Rattle.std.specs.Prelude.{false, ◌≡◌, ◌<◌, ◌≤◌, length};
ghost use Rattle.rule.specs.Day.{day_at};
ghost use Rattle.rule.specs.Gives.{end_day};
ghost use Rattle.matcher.specs.Inner.Walk.{Asked, picks_on_by};
ghost use Rattle.track.specs.Inner.Runs.{marked};
ghost use Rattle.track.specs.Inner.Plain.{InMonth, Part};

use matcher::Terms;
use rule::Day;

pub(crate) fn picks_plain(terms: Terms, flags: &[bool], x: Day) -> bool
    requires { (terms.placed ≡ false) × Asked terms (length flags.now) x }
    ensures { result ≡ picks_on_by terms flags.now x.number }
{
    matcher::flags::stays(flags, terms.inyear, x) && matcher::walk::in_step(terms, x)
}

// The days of one month from x on, as many as there are hits.
pub(crate) fn mark_each(terms: Terms, flags: &[bool], hits: &mut [bool], x: Day, value: bool)
    requires { (terms.placed ≡ false) × (Asked terms (length flags.now) x × InMonth x (length hits.old)) }
    ensures { hits.new ≡ marked (picks_on_by terms flags.now) value x.number hits.old }
{
    for (k, hit) in hits.iter_mut().enumerate() {
        let y = super::leaps::in_month(x, k as u32);
        let picked = picks_plain(terms, flags, y);
        if picked {
            *hit = value;
        }
    }
}

// How many of the days that are left lie in the month of x.
pub fn month_part(x: Day, left: usize) -> usize
    requires { (x ≡ day_at x.number) × ((x.number < end_day) × (1 ≤ left)) }
    ensures { Part x left result }
{
    let end = super::skips::to_month_end(x) as usize;
    left.min(end)
}
