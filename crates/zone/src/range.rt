// The ranges of a zone table's numbers, and their order.
ghost use Rattle.std.specs.Prelude.{◌≡◌, true};
ghost use Rattle.zone.specs.Table as Table;

// Is z within ±k?
pub(crate) fn within(z: i64, k: u64) -> bool
    ensures { result ≡ Table.within k z }
{
    z.unsigned_abs() <= k
}

// Is each number below the next?
pub(crate) fn increasing(s: &[i64]) -> bool
    ensures { result ≡ Table.increasing s.now }
{
    s.is_sorted_by(|a, b| *a < *b)
}

// Are all within ±k? Of numbers that increase only the ends need a look.
pub(crate) fn ends_within(s: &[i64], k: u64) -> bool
    requires { Table.increasing s.now ≡ true }
    ensures { result ≡ Table.all_within k s.now }
{
    match s {
        [] => true,
        [only] => within(*only, k),
        [first, .., last] => within(*first, k) && within(*last, k),
    }
}
