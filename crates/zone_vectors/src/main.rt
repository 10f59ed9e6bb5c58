// Runs zone tables against the proved look-up and prints a line for each. What must be printed is found anew by tests/zone_vectors.py.
#![tactic(auto)]

ghost use Rattle.std.specs.Prelude.{◌≤◌};

use std::io;

fn print_list(rt: &impl Print, s: &[i64]) -> io::Result<()> {
    if 3 < s.len() {
        return print!(rt; "{} entries", s.len());
    }
    print!(rt; "[")?;
    for (i, z) in s.iter().enumerate() {
        if 0 < i {
            print!(rt; " ")?;
        }
        print!(rt; "{z}")?;
    }
    print!(rt; "]")
}

fn print_table(
    rt: &impl Print,
    initial: i64,
    instants: &[i64],
    offsets: &[i64],
    local: i64,
) -> io::Result<()> {
    print!(rt; "{initial} ")?;
    print_list(rt, instants)?;
    print!(rt; " ")?;
    print_list(rt, offsets)?;
    print!(rt; " at {local}: ")
}

// UTC is asked for a local time within ±2^62, with a hint of where the offset was found; the offset itself with one that is wrong for most.
fn show(
    rt: &impl Print,
    initial: i64,
    instants: &[i64],
    offsets: &[i64],
    local: i64,
) -> io::Result<()> {
    print_table(rt, initial, instants, offsets, local)?;
    if !zone::valid(initial, instants, offsets) {
        return println!(rt; "not valid");
    }
    let mut hint = 1;
    let offset = zone::offset(initial, instants, offsets, local, &mut hint);
    if local.unsigned_abs() > 4611686018427387904 {
        return println!(rt; "offset {offset}, no UTC");
    }
    let utc = zone::utc(initial, instants, offsets, local, &mut hint);
    println!(rt; "offset {offset}, UTC {utc}")
}

// A transition a day, one hour on and back, n of them.
fn many(rt: &impl Print, n: usize, local: i64) -> io::Result<()>
    requires { n ≤ 1025 }
{
    let instants: [i64; 1025] = std::array::from_fn(|i| (i * 86400) as i64);
    let offsets: [i64; 1025] = std::array::from_fn(|i| (i % 2 * 3600) as i64);
    show(rt, 0, &instants[..n], &offsets[..n], local)
}

// Los Angeles, 2020-11-01: an overlap from 01:00:00, whose mark is 02:00:00. Melbourne, 2020-10-04: a gap from 02:00:00, whose mark is
// 03:00:00.
fn worked_dates(rt: &impl Print) -> io::Result<()> {
    show(rt, -25200, &[1604221200], &[-28800], 1604194200)?;
    show(rt, -25200, &[1604221200], &[-28800], 1604195999)?;
    show(rt, -25200, &[1604221200], &[-28800], 1604196000)?;
    show(rt, 36000, &[1601740800], &[39600], 1601776799)?;
    show(rt, 36000, &[1601740800], &[39600], 1601776800)?;
    show(rt, 36000, &[1601740800], &[39600], 1601778600)?;
    show(rt, 36000, &[1601740800], &[39600], 1601780399)?;
    show(rt, 36000, &[1601740800], &[39600], 1601780400)
}

fn initial_offsets(rt: &impl Print) -> io::Result<()> {
    show(rt, -18000, &[], &[], 1516021200)?;
    show(rt, 86399, &[], &[], 9223372036854775807)?;
    show(rt, -86399, &[], &[], -9223372036854775808)?;
    show(rt, 86400, &[], &[], 0)?;
    show(rt, -86400, &[], &[], 0)?;
    show(rt, 9223372036854775807, &[], &[], 0)?;
    show(rt, -9223372036854775808, &[], &[], 0)
}

fn ranges(rt: &impl Print) -> io::Result<()> {
    show(rt, 0, &[1099511627776], &[0], 1099511627776)?;
    show(rt, 0, &[1099511627777], &[0], 0)?;
    show(rt, 0, &[-1099511627776], &[-1], 0)?;
    show(rt, 0, &[-1099511627777], &[-1], 0)?;
    show(rt, 1, &[9223372036854775807], &[1], 0)?;
    show(rt, -1, &[-9223372036854775808], &[-1], 0)?;
    show(rt, 0, &[0], &[86399], 86399)?;
    show(rt, 0, &[0], &[86400], 86399)?;
    show(rt, 0, &[0], &[-86399], 0)?;
    show(rt, 0, &[0], &[-86400], 0)?;
    show(rt, 0, &[0], &[9223372036854775807], 0)?;
    show(rt, 0, &[0], &[-9223372036854775808], 0)
}

// Instants equal and out of order; then instants that increase, with the second mark below the first, equal to it, one above.
fn order(rt: &impl Print) -> io::Result<()> {
    show(rt, 0, &[100, 100], &[0, 3600], 100)?;
    show(rt, 0, &[100, 99], &[3600, 0], 100)?;
    show(rt, 3600, &[1000, 4599], &[0, 0], 4599)?;
    show(rt, 3600, &[1000, 4600], &[0, 0], 4600)?;
    show(rt, 3600, &[1000, 4601], &[0, -60], 4599)?;
    show(rt, 3600, &[1000, 4601], &[0, -60], 4600)?;
    show(rt, 3600, &[1000, 4601], &[0, -60], 4601)?;
    show(rt, 0, &[100, 200000], &[3600], 0)?;
    show(rt, 0, &[100], &[3600, 0], 0)
}

// On both sides of each mark (4600, 203600, 403600), and far out.
fn places(rt: &impl Print) -> io::Result<()> {
    show(
        rt,
        0,
        &[1000, 200000, 400000],
        &[3600, 0, 3600],
        -9223372036854775808,
    )?;
    show(
        rt,
        0,
        &[1000, 200000, 400000],
        &[3600, 0, 3600],
        -4611686018427387904,
    )?;
    show(rt, 0, &[1000, 200000, 400000], &[3600, 0, 3600], 4599)?;
    show(rt, 0, &[1000, 200000, 400000], &[3600, 0, 3600], 4600)?;
    show(rt, 0, &[1000, 200000, 400000], &[3600, 0, 3600], 203599)?;
    show(rt, 0, &[1000, 200000, 400000], &[3600, 0, 3600], 203600)?;
    show(rt, 0, &[1000, 200000, 400000], &[3600, 0, 3600], 403599)?;
    show(rt, 0, &[1000, 200000, 400000], &[3600, 0, 3600], 403600)?;
    show(
        rt,
        0,
        &[1000, 200000, 400000],
        &[3600, 0, 3600],
        4611686018427387904,
    )?;
    show(
        rt,
        0,
        &[1000, 200000, 400000],
        &[3600, 0, 3600],
        9223372036854775807,
    )
}

fn long_tables(rt: &impl Print) -> io::Result<()> {
    many(rt, 1024, -1)?;
    many(rt, 1024, 0)?;
    many(rt, 1024, 89999)?;
    many(rt, 1024, 90000)?;
    many(rt, 1024, 88390799)?;
    many(rt, 1024, 88390800)?;
    many(rt, 1025, 0)
}

// The mark that the search reads first, in the middle: the second before it, and its own.
fn middle_marks(rt: &impl Print) -> io::Result<()> {
    many(rt, 1, -1)?;
    many(rt, 1, 0)?;
    many(rt, 4, 176399)?;
    many(rt, 4, 176400)?;
    many(rt, 512, 22121999)?;
    many(rt, 512, 22122000)?;
    many(rt, 1023, 44153999)?;
    many(rt, 1023, 44154000)?;
    many(rt, 1024, 44240399)?;
    many(rt, 1024, 44240400)
}

fn main(rt: HostRuntime) -> io::Result<()> {
    worked_dates(&rt)?;
    initial_offsets(&rt)?;
    ranges(&rt)?;
    order(&rt)?;
    places(&rt)?;
    long_tables(&rt)?;
    middle_marks(&rt)
}
