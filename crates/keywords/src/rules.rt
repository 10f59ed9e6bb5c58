// The words of a rule of recurrence. They are compared one by one: a match has a goal for each byte that differs, and those stayed open.
ghost use Rattle.std.specs.Prelude.{◌≡◌};
ghost use Rattle.keywords.specs.Rules.{frequency_of, weekday_of, skip_fault, rscale_fault};

use crate::{Named, Rate, is};

#[tactic(auto, unfolding(crate::specs::Rules::frequency_of))]
pub fn frequency(raw: &[u8]) -> Rate
    ensures { result ≡ frequency_of raw.now }
{
    if is(raw, b"daily") {
        return Rate::Daily;
    }
    if is(raw, b"weekly") {
        return Rate::Weekly;
    }
    if is(raw, b"monthly") {
        return Rate::Monthly;
    }
    if is(raw, b"yearly") {
        return Rate::Yearly;
    }
    if is(raw, b"hourly") || is(raw, b"minutely") || is(raw, b"secondly") {
        return Rate::Fault(8);
    }
    Rate::Fault(24)
}

#[tactic(auto, unfolding(crate::specs::Rules::weekday_of))]
pub fn weekday(raw: &[u8]) -> Named
    ensures { result ≡ weekday_of raw.now }
{
    if is(raw, b"mo") {
        return Named::Number(0);
    }
    if is(raw, b"tu") {
        return Named::Number(1);
    }
    if is(raw, b"we") {
        return Named::Number(2);
    }
    if is(raw, b"th") {
        return Named::Number(3);
    }
    if is(raw, b"fr") {
        return Named::Number(4);
    }
    if is(raw, b"sa") {
        return Named::Number(5);
    }
    if is(raw, b"su") {
        return Named::Number(6);
    }
    Named::Wrong(24)
}

// The fault of a `skip`, 0 where there is none.
#[tactic(auto, unfolding(crate::specs::Rules::skip_fault))]
pub fn skip(raw: &[u8]) -> u32
    ensures { result ≡ skip_fault raw.now }
{
    if is(raw, b"omit") {
        return 0;
    }
    if is(raw, b"forward") || is(raw, b"backward") {
        return 8;
    }
    24
}

// The fault of an `rscale`, 0 where there is none.
#[tactic(auto, unfolding(crate::specs::Rules::rscale_fault))]
pub fn rscale(raw: &[u8]) -> u32
    ensures { result ≡ rscale_fault raw.now }
{
    if is(raw, b"gregorian") { 0 } else { 8 }
}
