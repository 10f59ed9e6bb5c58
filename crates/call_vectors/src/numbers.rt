// Numbers of the input.
ghost use Rattle.std.specs.Prelude.{◌≤◌, ◌<◌, ◌^◌, length};

#[derive(Clone, Copy)]
pub struct Number {
    pub value: u64,
    pub next: usize,
}

// One more digit; a number that gets too long begins again.
fn append(n: u64, digit: u8) -> u64
    ensures { result < 2 ^ 60 }
{
    if n < 1000000000000000 {
        return n * 10 + u64::from(digit % 16);
    }
    0
}

// The number at a place, and the place after the space that ends it.
pub(crate) fn number_at(all: &[u8], from: usize) -> Number
    requires { from ≤ length all.now }
    ensures { (from ≤ result.next) × ((result.next ≤ length all.now) × (result.value < 2 ^ 60)) }
{
    let mut n = 0;
    for i in from..all.len() {
        let byte = all[i];
        if byte == 0x20 {
            return Number {
                value: n,
                next: i + 1,
            };
        }
        n = append(n, byte);
    }
    Number {
        value: n,
        next: all.len(),
    }
}
