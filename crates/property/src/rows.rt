// The members of an object in a row: for each number of a name the place of its value, 0 where there is none. One walk serves all names.
ghost use Rattle.std.specs.Prelude.{◌≡◌, ℕ, ◌+◌, ◌≤◌, length};
ghost use Rattle.json_ends.specs.Inner.Ends.{Ends};
ghost use Rattle.json_walk.specs.Walk.{first_member_at, members_of};
ghost use Rattle.json_tree.specs.Inner.Members.{find_in};
ghost use Rattle.fault.specs.Fault.{faults_at, first as fault_first, lower as fault_lower};
ghost use Rattle.event.specs.Reading.{place_in};
ghost use Rattle.event.specs.Values.{member};
ghost use Rattle.property.specs.Inner.From.{fields_in};
ghost use Rattle.property.specs.Inner.Vocabulary.{word_of};
ghost use Rattle.property.specs.Inner.Rows.{Blank, RowTo, noted, placed};

use crate::vocabulary::number_of;
use fault::{Fault, fault_at, lower};
use json_ends::objects::{first_member, next_member};
use json_walk::Member;

// The first member of the object at a place. There is none past the end of the text.
pub fn first(text: &[u8], ends: &[u32], at: usize) -> Option<Member>
    requires { Ends text.now ends.now }
    ensures { result ≡ first_member_at text.now at }
{
    if at < text.len() {
        return first_member(text, ends, at);
    }
    None
}

// Notes the place of a value under the number of its name. The first member of a name counts.
fn note(row: &mut [usize], w: usize, value: usize)
    ensures { row.new ≡ noted row.old w value }
{
    if w < row.len() {
        if row[w] == 0 {
            row[w] = value;
        }
    }
}

// Fills the row of the object at a place. A short row has the first numbers only.
pub fn fill(text: &[u8], ends: &[u32], at: usize, row: &mut [usize])
    requires { Ends text.now ends.now × (Blank row.old × (length row.old ≤ 34)) }
    ensures { RowTo (length row.old) text.now at row.new }
{
    let mut next = first(text, ends, at);
    for _ in 0..text.len() {
        let Some(m) = next else {
            return;
        };
        note(row, number_of(text, m.name, m.stop), m.value);
        next = next_member(text, ends, m.after);
    }
}

// The place of the value of the member whose name has this number. The text and the object's place are there for the contract.
pub fn place(text: &[u8], at: usize, row: &[usize], w: usize) -> Option<usize>
    requires { RowTo (w + 1) text.now at row.now }
    ensures { result ≡ placed (find_in text.now (word_of w) (members_of text.now at)) }
{
    let i = row[w];
    if i == 0 {
        return None;
    }
    Some(i)
}

// The fault of a member that was judged with a number, 0 being none, joined with others: it stands at its value, or at the object where there is no
// such member. Most members have none: then the others are handed back as they are.
pub fn join_in(
    text: &[u8],
    at: usize,
    row: &[usize],
    w: usize,
    number: u32,
    others: Option<Fault>,
) -> Option<Fault>
    requires { RowTo (w + 1) text.now at row.now }
    ensures { (l : ℕ) → result ≡ fault_lower (fault_first (faults_at number (place_in at (member (word_of w) (fields_in l text.now at))))) others }
{
    if number == 0 {
        return others;
    }
    let stands = place(text, at, row, w).unwrap_or(at);
    lower(fault_at(number, stands), others)
}

// The fault of a member that was judged with a number, 0 being none: it stands at its value, or at the object where there is no such member.
pub fn fault_in(text: &[u8], at: usize, row: &[usize], w: usize, number: u32) -> Option<Fault>
    requires { RowTo (w + 1) text.now at row.now }
    ensures { (l : ℕ) → result ≡ fault_first (faults_at number (place_in at (member (word_of w) (fields_in l text.now at)))) }
{
    fault_at(number, place(text, at, row, w).unwrap_or(at))
}
