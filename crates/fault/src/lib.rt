// Faults of reading, each with its place: 7 to 9, and 20 to 26 for 01's 6. A reader of several values joins theirs by `lower`.
#![tactic(auto)]

ghost use Rattle.std.specs.Prelude.{◌≡◌};
ghost use Rattle.fault.specs.Fault.{order, decides, lower, first, faults_at, first_number, first_place};

// The number of what is wrong with a value, and the place of the value.
#[derive(Clone, Copy, PartialEq, Eq)]
pub struct Fault {
    pub number: u32,
    pub place: usize,
}

// The fault of a value at a place, by the number that it was judged with; 0 is none.
#[tactic(auto, unfolding(crate::specs::Fault::faults_at, crate::specs::Fault::first, crate::specs::Fault::lower))]
pub fn fault_at(number: u32, place: usize) -> Option<Fault>
    ensures { result ≡ first (faults_at number place) }
{
    if number == 0 {
        return None;
    }
    Some(Fault { number, place })
}

// 20 to 26 stand where 6 stood.
#[tactic(auto, unfolding(crate::specs::Fault::is_wrong, crate::specs::Fault::order))]
fn order(number: u32) -> u32
    ensures { result ≡ order number }
{
    if 20 <= number { 6 } else { number }
}

// Does the first of two faults decide: by the order of the numbers, then by the place, then by the number?
#[tactic(auto, unfolding(crate::specs::Fault::decides))]
fn decides(a: Fault, b: Fault) -> bool
    ensures { result ≡ decides a.number a.place b.number b.place }
{
    (order(a.number), a.place, a.number) <= (order(b.number), b.place, b.number)
}

// The one of two that decides.
#[tactic(auto, unfolding(crate::specs::Fault::lower))]
pub fn lower(a: Option<Fault>, b: Option<Fault>) -> Option<Fault>
    ensures { result ≡ lower a b }
{
    match (a, b) {
        (None, _) => b,
        (_, None) => a,
        (Some(f), Some(g)) => if decides(f, g) { a } else { b },
    }
}

// A fault joined with that of a value at a place, by the number that it was judged with. Most values have none: then it is handed back as it is.
pub fn join_at(fault: Option<Fault>, number: u32, place: usize) -> Option<Fault>
    ensures { result ≡ lower fault (first (faults_at number place)) }
{
    if number == 0 {
        return fault;
    }
    lower(fault, fault_at(number, place))
}

// Its number, 0 where there is none.
pub fn number_of(f: Option<Fault>) -> u32
    ensures { result ≡ first_number f }
{
    f.map_or(0, |f| f.number)
}

// Its place, where it is one of 20 to 26.
#[tactic(auto, unfolding(crate::specs::Fault::is_wrong))]
pub fn place_of(f: Option<Fault>) -> usize
    ensures { result ≡ first_place f }
{
    match f {
        Some(f) if 20 <= f.number => f.place,
        _ => 0,
    }
}
