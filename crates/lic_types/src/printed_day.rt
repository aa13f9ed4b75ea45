ghost use Rattle.std.specs.Prelude.{◌≡◌, ◌+◌, ◌-◌, ◌≤◌, ◌<◌, ◌^◌, ◌++◌, decimal, length, replicate, take};
ghost use Rattle.lic_types.specs.Days.{day_text, month_text, year_text};

use crate::day::Day;
use crate::room::put;
use itoa::Buffer;

const MONTHS: [[u8; 3]; 12] = [
    *b"jan", *b"feb", *b"mar", *b"apr", *b"may", *b"jun", *b"jul", *b"aug", *b"sep", *b"oct",
    *b"nov", *b"dec",
];

fn month_name(month: u8) -> [u8; 3]
    requires low { 1 ≤ month }
    requires high { month ≤ 12 }
    ensures { result ≡ month_text month }
{
    MONTHS[usize::from(month) - 1]
}

fn put_day(room: &mut [u8; 16], day: u8) -> usize
    requires { day < 10 ^ 2 }
    ensures offset { result ≤ 2 }
    ensures written { take result room.new ≡ decimal day }
{
    let mut buffer = Buffer::new();
    put(room, 0, buffer.format(day).as_bytes())
}

fn put_zeros(room: &mut [u8; 16], at: usize, count: usize) -> usize
    requires few { count ≤ 4 }
    requires fits { at + 4 ≤ 16 }
    ensures offset { result ≡ at + count }
    ensures written { take result room.new ≡ take at room.old ++ replicate count 48 }
{
    let zeros = [b'0'; 4];
    put(room, at, &zeros[..count])
}

/// Writes a year in four digits.
fn put_year(room: &mut [u8; 16], at: usize, year: u16) -> usize
    requires fits { at + 4 ≤ 16 }
    requires year { year < 10 ^ 4 }
    ensures offset { result ≡ at + 4 }
    ensures written { take result room.new ≡ take at room.old ++ year_text year }
{
    let mut buffer = Buffer::new();
    let digits = buffer.format(year).as_bytes();
    let at = put_zeros(room, at, 4 - digits.len());
    put(room, at, digits)
}

impl Day {
    /// Writes the day at the front of the room as it is printed, and gives how many bytes it takes, 11 at most: the day
    /// without a leading zero, the first three letters of the month in English in small letters, and the year in four
    /// digits, joined by `-` (FlexNet License Administration Guide, chapter on the licence file).
    pub fn put(&self, room: &mut [u8; 16]) -> usize
        ensures offset { result ≤ 11 }
        ensures written { take result room.new ≡ day_text self.now }
    {
        let at = put_day(room, self.day);
        let at = put(room, at, b"-");
        let at = put(room, at, &month_name(self.month));
        let at = put(room, at, b"-");
        put_year(room, at, self.year)
    }
}
