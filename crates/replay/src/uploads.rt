// The uploads of a log, each counted in the place of its week.
ghost use Rattle.std.specs.Prelude.{◌≡◌, ◌-◌, ◌<◌, ◌^◌};
ghost use Rattle.signed.specs.Parts.{pos_part};
ghost use Rattle.weeks.specs.Inner.Places.{upload_all, Below, bump as places_bump, upload as places_upload};

use crate::instants::{first_of, up};

// One upload more: the first where the week had none.
#[tactic(auto, unfolding(weeks::specs::Inner::Places::bump))]
fn bump(z: i64) -> i64
    requires { pos_part z < 2 ^ 62 }
    ensures { result ≡ places_bump z }
{
    z.max(0) + 1
}

// One upload, where it lies in the range.
fn upload(b: u64, p: &mut [i64], t: i64)
    requires { Below (2 ^ 62 - 1) p.old }
    ensures { p.new ≡ places_upload b p.old t }
{
    let x = up(t);
    if x < b {
        return;
    }
    let w = first_of(b, x) as usize;
    if w < p.len() {
        p[w] = bump(p[w]);
    }
}

pub(crate) fn upload_all(log: &[i64], b: u64, p: &mut [i64])
    requires { Below 0 p.old }
    ensures { p.new ≡ upload_all b log.now p.old }
{
    for t in log {
        upload(b, p, *t);
    }
}
