//! The civil time of a file in UTC as a text of 19 bytes.
ghost use Rattle.std.specs.Prelude.{◌≡◌, ◌+◌, ◌%◌, pos, ◌≤ℤ◌, ◌*ℤ◌, unsigned_abs};
ghost use Rattle.jiff_core.specs.DateTime.{civil_nanos};
ghost use Rattle.conflict_names.specs.CivilTime.{digit as digit_of, moment_of, stamp_text, stamp};

use jiff::Timestamp;
use jiff::civil::DateTime;
use jiff::tz::Offset;

/// 9999-01-01 00:00:00 UTC, in seconds since 1970: the last moment that a name shows.
const LAST_SHOWN: i64 = 253_370_764_800;

/// The civil time in UTC of a file's time in seconds since 1970, as `YYYY-MM-DD-HH-MM-SS`.
///
/// A time before 1970 counts as 1970-01-01 00:00:00, and one past `LAST_SHOWN` as that moment.
pub(crate) fn stamp_at(mtime: i64) -> [u8; 19]
    ensures value { result ≡ stamp (moment_of mtime) }
{
    let moment = shown_moment(mtime);
    let time = civil_time(moment);
    stamp_of(time)
}

fn shown_moment(mtime: i64) -> i64
    ensures value { result ≡ pos (moment_of mtime) }
    ensures bound { result ≤ℤ pos 253_370_764_800 }
{
    if mtime < 0 {
        0
    } else if mtime > LAST_SHOWN {
        LAST_SHOWN
    } else {
        mtime
    }
}

fn civil_time(moment: i64) -> DateTime
    requires from_epoch { pos 0 ≤ℤ moment }
    requires bounded { moment ≤ℤ pos 253_370_764_800 }
    ensures value { civil_nanos result ≡ moment *ℤ pos 1_000_000_000 }
{
    match Timestamp::from_second(moment) {
        Ok(timestamp) => Offset::UTC.to_datetime(timestamp),
        Err(_) => unreachable!(),
    }
}

fn stamp_of(time: DateTime) -> [u8; 19]
    requires from_zero { pos 0 ≤ℤ time.date.year }
    ensures value { result ≡ stamp_text (unsigned_abs time.date.year) time.date.month time.date.day time.time.hour time.time.minute time.time.second }
{
    let year = time.year() as u16;
    let month = time.month() as u16;
    let day = time.day() as u16;
    let hour = time.hour() as u16;
    let minute = time.minute() as u16;
    let second = time.second() as u16;
    [
        digit(year / 1000),
        digit(year / 100),
        digit(year / 10),
        digit(year),
        b'-',
        digit(month / 10),
        digit(month),
        b'-',
        digit(day / 10),
        digit(day),
        b'-',
        digit(hour / 10),
        digit(hour),
        b'-',
        digit(minute / 10),
        digit(minute),
        b'-',
        digit(second / 10),
        digit(second),
    ]
}

/// The last decimal digit of a number, in ASCII.
fn digit(n: u16) -> u8
    ensures value { result ≡ digit_of n }
{
    b'0' + (n % 10) as u8
}
