// A window goes by in chunks of days.
ghost use Rattle.std.specs.Prelude.{◌≡◌, ◌+◌, ◌-◌, ◌*◌, ◌/◌, ◌<◌, ◌≤◌};
ghost use Rattle.rule.specs.Gives.{end_day};
ghost use Rattle.window.specs.Inner.Chunks.{chunk_end};

// The second after a chunk of k days.
pub fn chunk_end(at: u64, to: u64, k: usize) -> u64
    requires { at / 86400 + k ≤ end_day }
    ensures { result ≡ chunk_end at to k }
{
    to.min(86400 * (at / 86400 + k as u64))
}
