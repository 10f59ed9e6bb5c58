// The members of a rule and of an NDay, each with its default where it is absent.
ghost use Rattle.std.specs.Prelude.{ℕ, ◌+◌, true, ◌≡◌};
ghost use Rattle.rule.specs.declared.Frequency.TheVariants.{Yearly};
ghost use Rattle.rule.specs.Inner.Read.{nth_from};
ghost use Rattle.fault.specs.Fault.{first, lower as fault_lower};
ghost use Rattle.json_text.specs.Ascii.{ascii};
ghost use Rattle.event.specs.Reading.{optional, required, unsupported};
ghost use Rattle.event.specs.Rules.{from_rate, from_named, read_frequency, read_count, read_weekday, read_nth, read_scale, read_skip, read_type};
ghost use Rattle.rule_text.specs.Inner.Members.{member_at};
ghost use Rattle.rule_text.specs.Inner.Reads.{Reads};
ghost use Rattle.rule_text.specs.Inner.Types.{type_of};
ghost use Rattle.property.specs.Inner.Rows.{RowTo};
ghost use Rattle.property.specs.Inner.Vocabulary.{word_of};

use crate::numbers::{count, signed_up_to};
use crate::spelled::{read_frequency, read_scale, read_skip, read_type, read_weekday};
use crate::{Number, Object, Signed};
use fault::{Fault, fault_at, lower};
use keywords::{Named, Rate};
use property::rows::place;
use property::vocabulary::{DAY, FIRST_DAY, FREQUENCY, INTERVAL, NTH, RSCALE, SKIP, TYPE};

// The fault of the `@type`.
pub(crate) fn type_in(text: &[u8], at: usize, row: &[usize], object: Object) -> u32
    requires { RowTo 3 text.now at row.now }
    ensures { (l : ℕ) → result ≡ (required true (read_type (type_of object)) (member_at l text.now at (ascii "@type"))).fault }
{
    match place(text, at, row, TYPE) {
        Some(i) => read_type(text, i, object),
        None => 26,
    }
}

pub(crate) fn frequency_in(text: &[u8], at: usize, row: &[usize]) -> Rate
    requires { RowTo 34 text.now at row.now }
    ensures { (l : ℕ) → from_rate result ≡ required Yearly read_frequency (member_at l text.now at (ascii "frequency")) }
{
    match place(text, at, row, FREQUENCY) {
        Some(i) => read_frequency(text, i),
        None => Rate::Fault(26),
    }
}

pub(crate) fn interval_in(text: &[u8], at: usize, row: &[usize]) -> Number
    requires { RowTo 34 text.now at row.now }
    ensures { Reads (λ l. optional 1 read_count (member_at l text.now at (ascii "interval"))) result.value result.fault }
{
    match place(text, at, row, INTERVAL) {
        Some(i) => count(text, i),
        None => Number { value: 1, fault: 0 },
    }
}

pub(crate) fn first_in(text: &[u8], at: usize, row: &[usize]) -> Named
    requires { RowTo 34 text.now at row.now }
    ensures { (l : ℕ) → from_named result ≡ optional 0 read_weekday (member_at l text.now at (ascii "firstDayOfWeek")) }
{
    match place(text, at, row, FIRST_DAY) {
        Some(i) => read_weekday(text, i),
        None => Named::Number(0),
    }
}

pub(crate) fn day_in(text: &[u8], at: usize, row: &[usize]) -> Named
    requires { RowTo 3 text.now at row.now }
    ensures { (l : ℕ) → from_named result ≡ required 0 read_weekday (member_at l text.now at (ascii "day")) }
{
    match place(text, at, row, DAY) {
        Some(i) => read_weekday(text, i),
        None => Named::Wrong(26),
    }
}

// 0 where there is none.
pub(crate) fn nth_in(text: &[u8], at: usize, row: &[usize]) -> Signed
    requires { RowTo 3 text.now at row.now }
    ensures { Reads (λ l. read_nth (member_at l text.now at (ascii "nthOfPeriod"))) (nth_from result.value) result.fault }
{
    match place(text, at, row, NTH) {
        Some(i) => signed_up_to(text, i, 53),
        None => Signed { value: 0, fault: 0 },
    }
}

pub(crate) fn scale_in(text: &[u8], at: usize, row: &[usize]) -> u32
    requires { RowTo 34 text.now at row.now }
    ensures { (l : ℕ) → result ≡ (optional true read_scale (member_at l text.now at (ascii "rscale"))).fault }
{
    match place(text, at, row, RSCALE) {
        Some(i) => read_scale(text, i),
        None => 0,
    }
}

pub(crate) fn skip_in(text: &[u8], at: usize, row: &[usize]) -> u32
    requires { RowTo 34 text.now at row.now }
    ensures { (l : ℕ) → result ≡ (optional true read_skip (member_at l text.now at (ascii "skip"))).fault }
{
    match place(text, at, row, SKIP) {
        Some(i) => read_skip(text, i),
        None => 0,
    }
}

// The fault of a member that is unsupported as a whole, joined with others.
pub(crate) fn unsupported_in(
    text: &[u8],
    at: usize,
    row: &[usize],
    word: usize,
    others: Option<Fault>,
) -> Option<Fault>
    requires { RowTo (word + 1) text.now at row.now }
    ensures { (l : ℕ) → result ≡ fault_lower (first (unsupported (member_at l text.now at (word_of word)))) others }
{
    match place(text, at, row, word) {
        Some(i) => lower(fault_at(8, i), others),
        None => others,
    }
}
