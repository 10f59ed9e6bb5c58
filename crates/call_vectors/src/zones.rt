// The zone tables that a case can ask for by number. Each has two changes of the clock.

#[derive(Clone, Copy)]
pub struct Zone {
    pub name: &'static [u8],
    pub initial: i64,
    pub instants: [i64; 2],
    pub offsets: [i64; 2],
}

// The zone table of a number: 0 is New York's, and so is every number that is not listed.
pub(crate) fn numbered(number: u64) -> Zone {
    match number {
        1 => london(),
        2 => lord_howe(),
        3 => apia(),
        4 => widest(),
        _ => new_york(),
    }
}

// America/New_York from summer 2020 to summer 2021: the clock goes back, and forward.
fn new_york() -> Zone {
    Zone {
        name: b"America/New_York",
        initial: -14400,
        instants: [1604210400, 1615705200],
        offsets: [-18000, -14400],
    }
}

// Europe/London from summer 2020 to summer 2021: back, and forward.
fn london() -> Zone {
    Zone {
        name: b"Europe/London",
        initial: 3600,
        instants: [1603587600, 1616893200],
        offsets: [0, 3600],
    }
}

// Australia/Lord_Howe from summer to summer in 2021: half an hour back, and forward.
fn lord_howe() -> Zone {
    Zone {
        name: b"Australia/Lord_Howe",
        initial: 39600,
        instants: [1617462000, 1633188600],
        offsets: [37800, 39600],
    }
}

// Pacific/Apia from summer 2011 to winter 2012: 30 December 2011 is left out, then the clock goes back.
fn apia() -> Zone {
    Zone {
        name: b"Pacific/Apia",
        initial: -36000,
        instants: [1325239200, 1333202400],
        offsets: [50400, 46800],
    }
}

// Made up: from the lowest offset to the highest in June 2021, and back in July.
fn widest() -> Zone {
    Zone {
        name: b"Example/Widest",
        initial: -86399,
        instants: [1622505600, 1625097600],
        offsets: [86399, -86399],
    }
}
