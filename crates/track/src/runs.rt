// The days of a settled rule in a run of days.
ghost use Rattle.std.specs.Prelude.{true, ◌≡◌, length};
ghost use Rattle.rule.specs.declared.Frequency.TheVariants.{Monthly};
ghost use Rattle.matcher.specs.Inner.Walk.{picks_on_by};
ghost use Rattle.track.specs.Inner.Runs.{has_day, marked, Marking, Run};

use super::Track;
use matcher::Terms;
use rule::Frequency;

// From day to day, with what set positions ask for.
fn mark_placed(terms: Terms, flags: &[bool], hits: &mut [bool], first: u32, value: bool)
    requires { Run terms (length flags.now) first (length hits.old) }
    ensures { hits.new ≡ marked (picks_on_by terms flags.now) value first hits.old }
{
    let need = super::places::least_days(terms, flags);
    let mut c = super::steps::cursor_at(terms, flags, first);
    let mut i = 0;
    // The steps are as long as a day or a gap, so no range has them.
    while i < hits.len() {
        let held = c;
        if super::steps::picks(terms, flags, held) {
            hits[i] = value;
            i += 1;
            c = super::steps::advance(terms, flags, held);
        } else {
            let gap = super::skips::gap(terms, flags, need, held);
            if hits.len() <= i + gap as usize {
                return;
            }
            i += gap as usize;
            c = super::leaps::leap(terms, flags, held, gap);
        }
    }
}

// Months are marked whole; a position that no month has is left to the walk from day to day, which passes all of them at once.
fn mark_positions(terms: Terms, flags: &[bool], hits: &mut [bool], first: u32, value: bool)
    requires { Run terms (length flags.now) first (length hits.old) }
    ensures { hits.new ≡ marked (picks_on_by terms flags.now) value first hits.old }
{
    if terms.frequency == Frequency::Monthly
        && super::places::least_days(terms, flags) <= 31
        && super::alike::is_alike(terms, flags)
    {
        super::parts::mark_parts(terms, flags, true, hits, first, value);
    } else {
        mark_placed(terms, flags, hits, first, value);
    }
}

fn mark_days(terms: Terms, flags: &[bool], hits: &mut [bool], first: u32, value: bool)
    requires { Run terms (length flags.now) first (length hits.old) }
    ensures { hits.new ≡ marked (picks_on_by terms flags.now) value first hits.old }
{
    if terms.placed {
        mark_positions(terms, flags, hits, first, value);
    } else {
        let alike = super::alike::is_alike(terms, flags);
        super::parts::mark_parts(terms, flags, alike, hits, first, value);
    }
}

// Hit i of the run stands for day first + i: where the rule has that day, it gets the value. Only the days from `begin` on and before
// the rule's end are looked at.
pub fn mark_run(
    track: Track,
    flags: &[bool],
    hits: &mut [bool],
    first: u32,
    begin: u32,
    value: bool,
)
    requires { Marking track (length flags.now) first (length hits.old) }
    ensures { hits.new ≡ marked (has_day track flags.now begin) value first hits.old }
{
    let from = super::ranges::later(first, begin);
    let to = super::ranges::earlier(first + hits.len() as u32, track.last);
    if to <= from {
        return;
    }
    let a = (from - first) as usize;
    let b = (to - first) as usize;
    mark_days(track.terms, flags, &mut hits[a..b], from, value);
}
