// The names of all members that are read, each with its number. Those of an NDay come first, then those of a patch, of an event and of a
// rule, so that each kind of object needs only the first numbers: an NDay 3, a patch 10, an event 18, a rule all 34.
ghost use Rattle.std.specs.Prelude.{◌≡◌};
ghost use Rattle.json_walk.specs.Strings.{raw_at};
ghost use Rattle.property.specs.Inner.Vocabulary.{numbered, of_short, of_five, of_seven, of_eight, of_twelve, of_long, number_at};

use json_text::bytes::byte;
use json_walk::strings::{inside, raw_is, step};

pub const TYPE: usize = 0;

pub const DAY: usize = 1;

pub const NTH: usize = 2;

pub const START: usize = 3;

pub const DURATION: usize = 4;

pub const STATUS: usize = 5;

pub const ALL_DAY: usize = 6;

pub const TITLE: usize = 7;

pub const DESCRIPTION: usize = 8;

pub const EXCLUDED: usize = 9;

pub const UID: usize = 10;

pub const UPDATED: usize = 11;

pub const ZONE: usize = 12;

pub const PRIVACY: usize = 13;

pub const RULES: usize = 14;

pub const EXCLUDED_RULES: usize = 15;

pub const OVERRIDES: usize = 16;

pub const RECURRENCE_ID: usize = 17;

pub const FREQUENCY: usize = 18;

pub const INTERVAL: usize = 19;

pub const FIRST_DAY: usize = 20;

pub const RSCALE: usize = 21;

pub const SKIP: usize = 22;

pub const BY_DAY: usize = 23;

pub const BY_MONTH_DAY: usize = 24;

pub const BY_MONTH: usize = 25;

pub const BY_SET_POSITION: usize = 26;

pub const UNTIL: usize = 27;

pub const COUNT: usize = 28;

pub const BY_YEAR_DAY: usize = 29;

pub const BY_WEEK_NO: usize = 30;

pub const BY_HOUR: usize = 31;

pub const BY_MINUTE: usize = 32;

pub const BY_SECOND: usize = 33;

// The number of no name.
pub const OTHER: usize = 34;

// The number w where the string from k to j is this word.
fn number(text: &[u8], k: usize, j: usize, word: &[u8], w: usize) -> usize
    ensures { result ≡ numbered (raw_at text.now k j) word.now w }
{
    if raw_is(text, k, j, word) {
        return w;
    }
    OTHER
}

// The names of fewer than five bytes, by their first byte; and so on.
fn short(text: &[u8], k: usize, j: usize, b: u8) -> usize
    ensures { result ≡ of_short b (raw_at text.now k j) }
{
    if b == 0x75 {
        return number(text, k, j, b"uid", UID);
    }
    if b == 0x64 {
        return number(text, k, j, b"day", DAY);
    }
    number(text, k, j, b"skip", SKIP)
}

fn five(text: &[u8], k: usize, j: usize, b: u8) -> usize
    ensures { result ≡ of_five b (raw_at text.now k j) }
{
    if b == 0x40 {
        return number(text, k, j, b"@type", TYPE);
    }
    if b == 0x73 {
        return number(text, k, j, b"start", START);
    }
    if b == 0x74 {
        return number(text, k, j, b"title", TITLE);
    }
    if b == 0x75 {
        return number(text, k, j, b"until", UNTIL);
    }
    if b == 0x63 {
        return number(text, k, j, b"count", COUNT);
    }
    number(text, k, j, b"byDay", BY_DAY)
}

fn seven(text: &[u8], k: usize, j: usize, b: u8) -> usize
    ensures { result ≡ of_seven b (raw_at text.now k j) }
{
    if b == 0x75 {
        return number(text, k, j, b"updated", UPDATED);
    }
    if b == 0x70 {
        return number(text, k, j, b"privacy", PRIVACY);
    }
    if b == 0x72 {
        return number(text, k, j, b"rscale", RSCALE);
    }
    if raw_is(text, k, j, b"byHour") {
        return BY_HOUR;
    }
    number(text, k, j, b"byMonth", BY_MONTH)
}

fn eight(text: &[u8], k: usize, j: usize, b: u8) -> usize
    ensures { result ≡ of_eight b (raw_at text.now k j) }
{
    if b == 0x74 {
        return number(text, k, j, b"timeZone", ZONE);
    }
    if b == 0x64 {
        return number(text, k, j, b"duration", DURATION);
    }
    if b == 0x69 {
        return number(text, k, j, b"interval", INTERVAL);
    }
    if b == 0x65 {
        return number(text, k, j, b"excluded", EXCLUDED);
    }
    if raw_is(text, k, j, b"byWeekNo") {
        return BY_WEEK_NO;
    }
    if raw_is(text, k, j, b"byMinute") {
        return BY_MINUTE;
    }
    number(text, k, j, b"bySecond", BY_SECOND)
}

fn twelve(text: &[u8], k: usize, j: usize, b: u8) -> usize
    ensures { result ≡ of_twelve b (raw_at text.now k j) }
{
    if b == 0x66 {
        return number(text, k, j, b"frequency", FREQUENCY);
    }
    if b == 0x64 {
        return number(text, k, j, b"description", DESCRIPTION);
    }
    if b == 0x6E {
        return number(text, k, j, b"nthOfPeriod", NTH);
    }
    if b == 0x72 {
        return number(text, k, j, b"recurrenceId", RECURRENCE_ID);
    }
    if raw_is(text, k, j, b"byMonthDay") {
        return BY_MONTH_DAY;
    }
    number(text, k, j, b"byYearDay", BY_YEAR_DAY)
}

fn long(text: &[u8], k: usize, j: usize, b: u8) -> usize
    ensures { result ≡ of_long b (raw_at text.now k j) }
{
    if b == 0x73 {
        return number(text, k, j, b"showWithoutTime", ALL_DAY);
    }
    if b == 0x62 {
        return number(text, k, j, b"bySetPosition", BY_SET_POSITION);
    }
    if b == 0x65 {
        return number(text, k, j, b"excludedRecurrenceRules", EXCLUDED_RULES);
    }
    if raw_is(text, k, j, b"recurrenceRules") {
        return RULES;
    }
    if raw_is(text, k, j, b"recurrenceOverrides") {
        return OVERRIDES;
    }
    if raw_is(text, k, j, b"freeBusyStatus") {
        return STATUS;
    }
    number(text, k, j, b"firstDayOfWeek", FIRST_DAY)
}

// The number of the name from k to j. Its length and its first byte leave one word or a few to compare it with.
pub(crate) fn number_of(text: &[u8], k: usize, j: usize) -> usize
    ensures { result ≡ number_at text.now k j }
{
    let n = inside(k, j);
    let b = byte(text, step(text, k));
    if n < 5 {
        return short(text, k, j, b);
    }
    if n == 5 {
        return five(text, k, j, b);
    }
    if n < 8 {
        return seven(text, k, j, b);
    }
    if n == 8 {
        return eight(text, k, j, b);
    }
    if n < 13 {
        return twelve(text, k, j, b);
    }
    long(text, k, j, b)
}
