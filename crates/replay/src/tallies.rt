// The number of weeks of each class, counted in the places.
ghost use Rattle.std.specs.Prelude.{if◌then◌else◌, ◌≡◌};
ghost use Rattle.weeks.specs.Weeks.{count};
ghost use Rattle.weeks.specs.Inner.Places.{class_of as places_class_of, in_class};
ghost use Rattle.replay.specs.Inner.Numbers.{class_number};

#[derive(Clone, Copy, PartialEq, Eq)]
pub(crate) enum Class {
    Reported,
    Shut,
    Missing,
}

// The class of a week, by its place.
fn class_of(z: i64) -> Class
    ensures { class_number result ≡ places_class_of z }
{
    match z {
        0.. => Class::Reported,
        -1 => Class::Shut,
        _ => Class::Missing,
    }
}

// 1 for a place of the class, and 0 for another.
fn one_if_same(z: i64, class: Class) -> u64
    ensures { result ≡ (if in_class (class_number class) z then 1 else 0) }
{
    u64::from(class_of(z) == class)
}

// The number of places of a class. The test is added as a number: with `filter` and `count` the machine has to guess each, and a million weeks took half as
// long again.
pub(crate) fn tally(p: &[i64], class: Class) -> u64
    ensures { result ≡ count (in_class (class_number class)) p.now }
{
    let mut n: u64 = 0;
    for z in p {
        n += one_if_same(*z, class);
    }
    n
}
