// The ids of a run of days that is filled, collected in a lent slice.
ghost use Rattle.std.specs.Prelude.{length};
ghost use Rattle.window.specs.Inner.Next.{is_there};
ghost use Rattle.window.specs.Inner.Handed.{Handed, Collects};

use super::Chunk;
use super::next::{next_in, next_kept, renew};
use super::sorted::rises;

// The ids from the second `from` on and before `to`, in order, as many as the slice has room for.
pub fn collect_run(
    hits: &[bool],
    first: u32,
    start: u64,
    ids: &[u64],
    gone: &[bool],
    from: u64,
    to: u64,
    out: &mut [u64],
) -> Chunk
    requires { Collects first (length hits.now) from to (length ids.now) (length gone.now) (length out.old) }
    ensures { Handed (is_there hits.now first start ids.now gone.now) from to out.old out.new result.count result.next }
{
    let sorted = rises(ids);
    let mut at = from;
    let mut pending = next_kept(ids, gone, sorted, from, to);
    for (n, place) in out.iter_mut().enumerate() {
        let x = next_in(hits, first, start, pending, at, to);
        if to <= x {
            return Chunk { count: n, next: to };
        }
        *place = x;
        at = x + 1;
        pending = renew(ids, gone, sorted, pending, x + 1, to);
    }
    Chunk {
        count: out.len(),
        next: at,
    }
}
