// What was driven, by whom, where and when.
ghost use Rattle.std.specs.Prelude.{◌≡◌};
ghost use Rattle.classes.specs.Times.{day_of, minute_of, weekday_of};

// Minutes of local time since 1 January 1970, 00:00.
#[derive(Clone, Copy)]
pub struct Instant(pub u32);

impl Instant {
    pub const MINUTES_A_DAY: u32 = 1_440;

    pub const DAYS_A_WEEK: u32 = 7;

    // 1 January 1970 was a Thursday, three days after a Monday.
    pub const FIRST_WEEKDAY: u32 = 3;

    // Whole days since 1 January 1970.
    pub fn day(self) -> u32
        ensures { result ≡ day_of self }
    {
        self.0 / Self::MINUTES_A_DAY
    }

    // The minute of the day, from 0 to 1,439.
    pub fn minute(self) -> u16
        ensures { result ≡ minute_of self }
    {
        (self.0 % Self::MINUTES_A_DAY) as u16
    }

    // The day of the week, from 0 for Monday to 6 for Sunday.
    pub fn weekday(self) -> u8
        ensures { result ≡ weekday_of self }
    {
        ((self.day() + Self::FIRST_WEEKDAY) % Self::DAYS_A_WEEK) as u8
    }
}

// Mass counts in units of 10 kg; the contract is eight bytes of text.
#[derive(Clone, Copy)]
pub struct Usage {
    pub partition: u8,
    pub object: u32,
    pub contract: [u8; Usage::CONTRACT_BYTES],
    pub instant: Instant,
    pub axles: u8,
    pub mass: u16,
    pub emission: u8,
    pub metres: u32,
    pub minutes: u32,
    pub events: u32,
}

impl Usage {
    pub const CONTRACT_BYTES: usize = 8;
}
