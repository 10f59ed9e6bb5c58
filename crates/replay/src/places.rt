// The places of the weeks, from zeros to uploads, shut and missing.
ghost use Rattle.std.specs.Prelude.{◌≡◌, ◌*◌, ◌≤◌, pos, length};
ghost use Rattle.sheet.specs.Runs.{tabulate};
ghost use Rattle.replay.specs.Inner.Sorted.{filled};

use crate::spans::mark_all;
use crate::sweeping::sweep;
use crate::uploads::upload_all;

// Sets each place to 0.
#[tactic(auto, using(crate::proofs::ClearLaws::cleared))]
fn clear_all(p: &mut [i64])
    ensures { p.new ≡ tabulate (λ i. pos 0) 0 (length p.old) }
{
    for z in p.iter_mut() {
        *z = 0;
    }
}

// All places that are lent, from the log and the n records of the sheet.
pub(crate) fn fill(log: &[i64], sheet: &[u8], n: usize, b: u64, p: &mut [i64])
    requires { 28 * n ≤ length sheet.now }
    ensures { p.new ≡ filled log.now sheet.now n b (length p.old) }
{
    clear_all(p);
    mark_all(sheet, n, b, p);
    sweep(p);
    upload_all(log, b, p);
}
