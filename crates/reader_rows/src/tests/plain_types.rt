ghost use Rattle.std.specs.Prelude.{◌≤◌};

use lic_types::{Day, Name, Version};
use std::test::Fail;

#[test]
fn words_that_are_versions(rt: HostRuntime) {
    const ROWS: &[(&[u8], u64)] = &[
        (b"1.0", 1_000_000_000),
        (b"2", 2_000_000_000),
        (b"2.10", 2_100_000_000),
        (b"2.1", 2_100_000_000),
        (b"2.9", 2_900_000_000),
        (b"0.00000001", 10),
        (b"1.00000000", 1_000_000_000),
        (b"9999999999", 9_999_999_999_000_000_000),
        (b"2024.1", 2_024_100_000_000),
    ];
    for &(word, key) in ROWS {
        assert_eq!(rt; Version::read(word), Some(Version { key }));
    }
}

#[test]
fn a_name_is_shown_as_its_bytes(rt: HostRuntime) -> Result<(), Fail> {
    let name = Name::read(b"ann-1~")?;
    let shown = format!(in rt.alloc(); "{name}")?;
    assert!(rt; shown.as_str() == "ann-1~");
    Ok(())
}

fn civil_day(year: u16, month: u8, day: u8, number: i32) -> Day
    requires first_month { 1 ≤ month }
    requires last_month { month ≤ 12 }
    requires first_day { 1 ≤ day }
    requires last_day { day ≤ 31 }
    requires last_year { year ≤ 9999 }
{
    Day {
        year,
        month,
        day,
        number,
    }
}

#[test]
fn days_as_they_are_printed(rt: HostRuntime) {
    let rows: [(Day, &[u8]); 4] = [
        (civil_day(1, 1, 1, -719_162), b"1-jan-0001"),
        (civil_day(824, 5, 30, -418_418), b"30-may-0824"),
        (civil_day(2026, 12, 31, 20_818), b"31-dec-2026"),
        (civil_day(9999, 9, 9, 2_932_783), b"9-sep-9999"),
    ];
    for (day, text) in rows {
        let mut room = [b'?'; 16];
        let length = day.put(&mut room);
        assert!(rt; &room[..length] == text);
    }
}
