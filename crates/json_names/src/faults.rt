// The names of every object in a value: the value's own, and those of the values that it holds, one level deeper. The walk
// over an object's members looks at their values, and puts their names down on the way, to be sorted at its end.
ghost use Rattle.std.specs.Prelude.{◌≡◌, ◌<◌, ◌≤◌, length};
ghost use Rattle.json_ends.specs.Inner.Ends.{Ends};
ghost use Rattle.json_walk.specs.Walk.{elements_of};
ghost use Rattle.json_names.specs.Inner.Names.{fault_at, object_fault, any_element};
ghost use Rattle.json_names.specs.Inner.Room.{Room};
ghost use Rattle.json_names.specs.Inner.Slashes.{Clean};

use crate::duplicates::repeated_from;
use crate::keys::pack;
use crate::opening::{append, opens};
use crate::slashes::slash_named;
use json_ends::arrays::{first_element, next_element};
use json_ends::objects::{first_member, next_member};
use json_text::bytes::byte;

// Is the value at a place at fault? It opens at most so many levels. The names of the objects around it stand in `order`
// before `base`.
#[cycle(array_fault_object)]
pub(crate) fn fault(
    text: &[u8],
    ends: &[u32],
    at: usize,
    left: usize,
    clean: bool,
    base: usize,
    order: &mut [u64],
    spare: &mut [u64],
) -> bool
    requires { Room base (length order.old) (length spare.old) × Clean text.now clean × Ends text.now ends.now }
    ensures { result ≡ fault_at left text.now at }
{
    if left == 0 {
        return false;
    }
    let b = byte(text, at);
    if b == 0x7B {
        return object(text, ends, at, left - 1, clean, base, order, spare);
    }
    if b == 0x5B {
        return array(text, ends, at, left - 1, clean, base, order, spare);
    }
    false
}

// Is the object at a place at fault?
#[cycle(array_fault_object)]
fn object(
    text: &[u8],
    ends: &[u32],
    at: usize,
    left: usize,
    clean: bool,
    base: usize,
    order: &mut [u64],
    spare: &mut [u64],
) -> bool
    requires { (at < length text.now) × Room base (length order.old) (length spare.old) × Clean text.now clean × Ends text.now ends.now }
    ensures { result ≡ object_fault (λ v. fault_at left text.now v) text.now at }
{
    let mut step = first_member(text, ends, at);
    let mut k = base;
    for _ in 0..text.len() {
        let Some(m) = step else {
            break;
        };
        if slash_named(text, clean, m.name, m.stop) {
            return true;
        }
        k = append(order, k, pack(text, m.name, m.stop));
        step = next_member(text, ends, m.after);
        if opens(text, m.value) && fault(text, ends, m.value, left, clean, k, order, spare) {
            return true;
        }
    }
    repeated_from(text, ends, at, base, k, order, spare)
}

// Is a value of the array at a place at fault?
#[cycle(array_fault_object)]
fn array(
    text: &[u8],
    ends: &[u32],
    at: usize,
    left: usize,
    clean: bool,
    base: usize,
    order: &mut [u64],
    spare: &mut [u64],
) -> bool
    requires { (at < length text.now) × Room base (length order.old) (length spare.old) × Clean text.now clean × Ends text.now ends.now }
    ensures { result ≡ any_element (λ v. fault_at left text.now v) (elements_of text.now at) }
{
    let mut step = first_element(text, ends, at);
    for _ in 0..text.len() {
        let Some(e) = step else {
            return false;
        };
        step = next_element(text, ends, e.after);
        if opens(text, e.value) && fault(text, ends, e.value, left, clean, base, order, spare) {
            return true;
        }
    }
    false
}
