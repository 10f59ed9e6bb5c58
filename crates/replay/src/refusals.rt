// The refusals 30 to 33, in their order.
ghost use Rattle.std.specs.Prelude.{◌≡◌, ◌%◌, eqb};
ghost use Rattle.std.specs.Int.Signed.{le_z};
ghost use Rattle.weeks.specs.Weeks.{weeks_in};
ghost use Rattle.weeks.specs.Replay.{ordered, is_range, refusal as replay_refusal};
ghost use Rattle.replay.specs.Inner.Numbers.{reason_number, answer_of};

use crate::instants::up;
use sheet_reader::trailer::judge;

// Why a call is refused.
#[derive(Clone, Copy)]
pub(crate) enum Reason {
    LogOutOfOrder,
    NoRange,
    NoSheet,
    TooFewPlaces,
}

impl From<Reason> for u32 {
    fn from(reason: Reason) -> u32
        ensures { result ≡ reason_number reason }
    {
        match reason {
            Reason::LogOutOfOrder => 30,
            Reason::NoRange => 31,
            Reason::NoSheet => 32,
            Reason::TooFewPlaces => 33,
        }
    }
}

fn not_after(t: i64, u: i64) -> bool
    ensures { result ≡ le_z t u }
{
    t <= u
}

// No instant of the log is before the one that it follows.
fn in_order(log: &[i64]) -> bool
    ensures { result ≡ ordered log.now }
{
    log.is_sorted_by(|t, u| not_after(*t, *u))
}

// Monday 00:00 UTC, 2^63 more than the signed instant: 345,600 and 2^63 leave 55,808.
fn is_monday(x: u64) -> bool
    ensures { result ≡ eqb (x % 604800) 55808 }
{
    x % 604800 == 55808
}

fn is_range(from: i64, to: i64) -> bool
    ensures { result ≡ is_range from to }
{
    is_monday(up(from)) && is_monday(up(to)) && from <= to
}

#[tactic(auto, using(crate::proofs::RangeLaws::weeks_passed))]
pub(crate) fn weeks_in(from: i64, to: i64) -> u64
    ensures { result ≡ weeks_in from to }
{
    up(to).saturating_sub(up(from)) / 604800
}

// The first refusal that applies.
pub(crate) fn refusal(log: &[i64], sheet: &[u8], from: i64, to: i64, room: u64) -> Option<Reason>
    ensures { answer_of result ≡ replay_refusal log.now sheet.now from to room }
{
    if !in_order(log) {
        return Some(Reason::LogOutOfOrder);
    }
    if !is_range(from, to) {
        return Some(Reason::NoRange);
    }
    if judge(sheet) != 0 {
        return Some(Reason::NoSheet);
    }
    if room < weeks_in(from, to) {
        return Some(Reason::TooFewPlaces);
    }
    None
}
