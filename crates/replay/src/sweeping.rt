// From the first week on: how far the spans that have begun reach, and so which weeks are shut.
ghost use Rattle.std.specs.Prelude.{◌≡◌};
ghost use Rattle.weeks.specs.Inner.Marks.{sweep as marks_sweep};

use crate::spans::larger;
use signed::positive_part;

// -1 for a week that is shut, -2 for one that is missing.
pub(crate) fn sweep(p: &mut [i64])
    ensures { p.new ≡ marks_sweep 0 0 p.old }
{
    let mut reach: u64 = 0;
    for (i, z) in p.iter_mut().enumerate() {
        reach = larger(reach, positive_part(*z));
        *z = if (i as u64) < reach { -1 } else { -2 };
    }
}
