//! The date of an answer (RFC 9110, 6.6.1).

ghost use Rattle.std.specs.Prelude.{◌≡◌};
ghost use Rattle.http_pages.specs.Dates.{date_text};

use httpdate::HttpDate;

/// The last second of the year 9999: `last_second` of `specs/Limits.antt`.
const LAST_SECOND: u64 = 253_402_300_799;

/// The date of a time in microseconds since 1970; behind the year 9999, of its last second.
pub fn date_at(time: u64) -> [u8; 29]
    ensures { result ≡ date_text time }
{
    match HttpDate::from_unix_secs((time / 1_000_000).min(LAST_SECOND)) {
        Ok(date) => date.to_bytes(),
        Err(_) => unreachable!(),
    }
}
