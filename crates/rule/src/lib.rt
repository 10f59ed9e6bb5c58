// What a rule of recurrence says of a day. The meaning is in specs/; here are the values that the code carries.
#![tactic(auto)]

pub mod days;

// A day with all that a rule asks of it, so that it is looked up once.
#[derive(Clone, Copy)]
pub struct Day {
    // From 1600-01-01.
    pub number: u32,
    // 0 is Monday.
    pub weekday: u32,
    pub year: u32,
    // The days of the year before this one, and all of them.
    pub yearday: u32,
    pub yeardays: u32,
    pub month: u32,
    // From 1, and the length of the month.
    pub monthday: u32,
    pub monthdays: u32,
}

#[derive(Clone, Copy, PartialEq, Eq)]
pub enum Frequency {
    Daily,
    Weekly,
    Monthly,
    Yearly,
}

// What ends a rule: 01 refuses both at once (7).
#[derive(Clone, Copy)]
pub enum End {
    Never,
    // The last date-time, in seconds from 1600-01-01T00:00:00.
    Until(u64),
    Count(u64),
}

// A rule as it is read: each by-list as the first entries of an array, none where it is absent.
#[derive(Clone, Copy)]
pub struct Rule {
    pub frequency: Frequency,
    pub interval: u64,
    // The first day of the week, 0 is Monday.
    pub first: u32,
    // byDay: the weekdays, and beside each its nthOfPeriod, 0 where it has none.
    pub weekdays: [u32; 64],
    pub nths: [i64; 64],
    pub days: usize,
    // byMonthDay
    pub dates: [i64; 64],
    pub datecount: usize,
    // byMonth
    pub months: [u32; 64],
    pub monthcount: usize,
    // bySetPosition
    pub positions: [i64; 64],
    pub positioncount: usize,
    pub end: End,
}
