// Signed numbers at the edge of the library: inside, counts are unsigned. The lemmas that carry integers to natural numbers are in
// proofs/Parts.antt, for every crate.
#![tactic(auto)]

ghost use Rattle.std.specs.Prelude.{◌≡◌, ◌<◌, ◌^◌};
ghost use Rattle.std.proofs.Math.IntN.{sub_ℕ};
ghost use Rattle.signed.specs.Parts.{pos_part, neg_part};
ghost use Rattle.signed.specs.Place.{place_of};

// z, or 0 where it is negative.
pub fn positive_part(z: i64) -> u64
    ensures { result ≡ pos_part z }
{
    z.max(0) as u64
}

// -z, or 0 where z is not negative.
pub fn negative_part(z: i64) -> u64
    ensures { result ≡ neg_part z }
{
    z.min(0).unsigned_abs()
}

// a - b.
pub fn difference(a: u64, b: u64) -> i64
    requires { (a < 2 ^ 63) × (b < 2 ^ 63) }
    ensures { result ≡ sub_ℕ a b }
{
    a as i64 - b as i64
}

// The place, counted from 1, that z names among n places; a negative z counts from the end. 0: there is no such place.
// A number and no Option: the contract of `place`, which docs/DECISIONS.md names, says that the result is `place_of`, and that is a number.
pub fn place(z: i64, n: u64) -> u64
    ensures { result ≡ place_of z n }
{
    let back = negative_part(z);
    if 0 < back {
        return n.saturating_sub(back - 1);
    }
    let on = positive_part(z);
    if on <= n { on } else { 0 }
}
