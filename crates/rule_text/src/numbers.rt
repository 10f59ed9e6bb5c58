// The integers of a rule.
ghost use Rattle.std.specs.Prelude.{◌≡◌};
ghost use Rattle.json_tree.specs.Tree.{tree_at};
ghost use Rattle.event.specs.Rules.{read_count, read_signed};
ghost use Rattle.rule_text.specs.Inner.Reads.{Reads, no_integer_at};

use crate::{Number, Signed};
use json_tree::Kind;
use json_tree::integers::integer;
use json_tree::kinds::kind;
use signed::difference;

// What is wrong with a value that is no integer in range: a number is 23, any other value 20.
fn no_integer(text: &[u8], at: usize) -> u32
    ensures { result ≡ no_integer_at text.now at }
{
    match kind(text, at) {
        Kind::Number => 23,
        _ => 20,
    }
}

// A number that is at least 1.
pub(crate) fn count(text: &[u8], at: usize) -> Number
    ensures { Reads (λ l. read_count (tree_at l text.now at)) result.value result.fault }
{
    match integer(text, at) {
        Some(n) if !n.negative && n.size != 0 => Number {
            value: n.size,
            fault: 0,
        },
        Some(_) => Number {
            value: 1,
            fault: 23,
        },
        None => Number {
            value: 1,
            fault: no_integer(text, at),
        },
    }
}

// A number that is not 0, up to a size.
pub(crate) fn signed_up_to(text: &[u8], at: usize, most: u32) -> Signed
    ensures { Reads (λ l. read_signed most (tree_at l text.now at)) result.value result.fault }
{
    match integer(text, at) {
        Some(n) if 1 <= n.size && n.size <= u64::from(most) => Signed {
            value: if n.negative {
                difference(0, n.size)
            } else {
                difference(n.size, 0)
            },
            fault: 0,
        },
        Some(_) => Signed {
            value: 1,
            fault: 23,
        },
        None => Signed {
            value: 1,
            fault: no_integer(text, at),
        },
    }
}
