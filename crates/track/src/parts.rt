// The days of a rule in a run of days, a part of a month at a time.
ghost use Rattle.std.specs.Prelude.{◌≡◌, length};
ghost use Rattle.matcher.specs.Inner.Walk.{Asked, picks_on_by};
ghost use Rattle.months.specs.Inner.Rows.{Kept};
ghost use Rattle.track.specs.Inner.Runs.{marked, Run};
ghost use Rattle.track.specs.Inner.Plain.{InMonth};
ghost use Rattle.track.specs.Inner.Alike.{Way, MarkedMonth};

use matcher::Terms;
use months::layout::ANSWERS;
use rule::Day;

// The days of one month from x on, as many as there are hits.
fn mark_part(
    terms: Terms,
    flags: &[bool],
    alike: bool,
    rows: &mut [bool],
    x: Day,
    hits: &mut [bool],
    value: bool,
)
    requires { Way alike terms flags.now × (Kept terms.placed flags.now rows.old × (Asked terms (length flags.now) x × InMonth x (length hits.old))) }
    ensures { MarkedMonth terms flags.now x value hits.old hits.new rows.new }
{
    if alike {
        super::alike::mark_alike(terms, flags, rows, x, hits, value);
    } else {
        super::plain::mark_each(terms, flags, hits, x, value);
    }
}

pub(crate) fn mark_parts(
    terms: Terms,
    flags: &[bool],
    alike: bool,
    hits: &mut [bool],
    first: u32,
    value: bool,
)
    requires { Way alike terms flags.now × Run terms (length flags.now) first (length hits.old) }
    ensures { hits.new ≡ marked (picks_on_by terms flags.now) value first hits.old }
{
    let mut rows = [false; ANSWERS];
    let mut x = rule::days::day_of(first);
    let mut i = 0;
    // The steps are as long as a gap or a part of a month, so no range has them.
    while i < hits.len() {
        let here = x;
        let out = super::skips::skip(terms, flags, here);
        if 0 < out {
            if hits.len() <= i + out as usize {
                return;
            }
            i += out as usize;
            x = super::leaps::days_later(here, out);
        } else {
            let n = super::plain::month_part(here, hits.len() - i);
            mark_part(
                terms,
                flags,
                alike,
                &mut rows,
                here,
                &mut hits[i..i + n],
                value,
            );
            if hits.len() <= i + n {
                return;
            }
            i += n;
            x = super::leaps::days_later(here, n as u32);
        }
    }
}
