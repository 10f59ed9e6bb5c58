// The patch at a place, judged: the fault of it that decides. Its values do not matter here.
ghost use Rattle.std.specs.Prelude.{if◌then◌else◌, ℕ, not, ◌&&◌, [], ◌≡◌};
ghost use Rattle.fault.specs.Fault.{faults_at, first as fault_first};
ghost use Rattle.json_walk.specs.Walk.{members_of};
ghost use Rattle.json_ends.specs.Inner.Ends.{Ends};
ghost use Rattle.event.specs.Overrides.{patch_in};
ghost use Rattle.property.specs.Inner.From.{fields_in};
ghost use Rattle.property.specs.Inner.Rows.{RowTo};
ghost use Rattle.override_text.specs.Inner.Meaning.{details_in};
ghost use Rattle.override_text.specs.Inner.Names.{single};
ghost use Rattle.override_text.specs.Inner.Patched.{patch_at};

use crate::Own;
use crate::names::{alone, names_fault};
use crate::patched::{busy, flag, length, passage, start};
use fault::{Fault, fault_at, lower};
use json_text::bytes::byte;
use property::rows::{fill, join_in};
use property::vocabulary::{ALL_DAY, DESCRIPTION, DURATION, EXCLUDED, START, STATUS, TITLE};

// `excluded` true stands beside no other member of the object at a place. Only then the members are looked at.
#[tactic(auto, unfolding(fault::specs::Fault::first))]
fn excluded_fault(text: &[u8], ends: &[u32], at: usize, excluded: bool) -> Option<Fault>
    requires { Ends text.now ends.now }
    ensures { result ≡ fault_first (if excluded && not (single (members_of text.now at)) then faults_at 7 at else []) }
{
    if excluded && !alone(text, ends, at) {
        return fault_at(7, at);
    }
    None
}

// Of the patch object at a place, with the row of its members.
fn fault_by(text: &[u8], ends: &[u32], at: usize, row: &[usize], own: Own, id: u64) -> Option<Fault>
    requires { Ends text.now ends.now × RowTo 10 text.now at row.now }
    ensures { (l : ℕ) → result ≡ fault_first (patch_in (details_in text.now own) id at (fields_in l text.now at)).faults }
{
    let when = start(text, at, row, id);
    let lasting = length(text, at, row, own.days, own.seconds);
    let status = busy(text, at, row, own.busy);
    let allday = flag(text, at, row, ALL_DAY, own.allday);
    let title = passage(text, at, row, TITLE, own.title);
    let description = passage(text, at, row, DESCRIPTION, own.description);
    let excluded = flag(text, at, row, EXCLUDED, false);
    let rest = lower(
        excluded_fault(text, ends, at, excluded.value),
        names_fault(text, ends, at),
    );
    let seventh = join_in(text, at, row, EXCLUDED, excluded.fault, rest);
    let sixth = join_in(text, at, row, DESCRIPTION, description.fault, seventh);
    let fifth = join_in(text, at, row, TITLE, title.fault, sixth);
    let fourth = join_in(text, at, row, ALL_DAY, allday.fault, fifth);
    let third = join_in(text, at, row, STATUS, status.fault, fourth);
    let second = join_in(text, at, row, DURATION, lasting.fault, third);
    join_in(text, at, row, START, when.fault, second)
}

fn object_fault(text: &[u8], ends: &[u32], at: usize, own: Own, id: u64) -> Option<Fault>
    requires { Ends text.now ends.now }
    ensures { (l : ℕ) → result ≡ fault_first (patch_in (details_in text.now own) id at (fields_in l text.now at)).faults }
{
    let mut row = [0usize; 10];
    fill(text, ends, at, &mut row);
    fault_by(text, ends, at, &row, own, id)
}

// A value that is no object answers 20.
pub(crate) fn patch_fault(text: &[u8], ends: &[u32], at: usize, own: Own, id: u64) -> Option<Fault>
    requires { Ends text.now ends.now }
    ensures { (l : ℕ) → result ≡ fault_first (patch_at l (details_in text.now own) id text.now at).faults }
{
    if byte(text, at) == 0x7B {
        return object_fault(text, ends, at, own, id);
    }
    fault_at(20, at)
}
