//! Dates.
ghost use Rattle.std.specs.Prelude.{◌≡◌, ◌+◌, ◌<◌, ◌≤◌, length};
ghost use Rattle.waivers.specs.Lines.{is_digit, two_digits as number_meant, are_two_digits as are_meant, is_leap as leap_meant, days_in as days_meant, is_day as day_meant, has_date_form as form_meant, is_date as date_meant};

fn is_digit(byte: u8) -> bool
    ensures { result ≡ is_digit byte }
{
    48 <= byte && byte <= 57
}

/// Whether two digits stand from a place on.
fn are_two_digits(bytes: &[u8], place: usize) -> bool
    requires { place + 1 < length bytes.now }
    ensures { result ≡ are_meant bytes.now place }
{
    is_digit(bytes[place]) && is_digit(bytes[place + 1])
}

/// The number of the two digits from a place on.
fn two_digits(bytes: &[u8], place: usize) -> u32
    requires { place + 1 < length bytes.now }
    ensures number { result ≡ number_meant bytes.now place }
    ensures small { result < 3000 }
{
    let tens = bytes[place].saturating_sub(b'0') as u32;
    let ones = bytes[place + 1].saturating_sub(b'0') as u32;
    tens * 10 + ones
}

fn is_leap(year: u32) -> bool
    ensures { result ≡ leap_meant year }
{
    year % 4 == 0 && (year % 100 != 0 || year % 400 == 0)
}

/// How many days a month has.
#[tactic(auto, unfolding(crate::specs::Lines::days_in))]
fn days_in(year: u32, month: u32) -> u32
    ensures { result ≡ days_meant year month }
{
    if month == 2 {
        return if is_leap(year) { 29 } else { 28 };
    }
    if month == 4 || month == 6 || month == 9 || month == 11 {
        return 30;
    }
    31
}

/// Whether there is such a day.
fn is_day(year: u32, month: u32, day: u32) -> bool
    ensures { result ≡ day_meant year month day }
{
    1 <= month && month <= 12 && 1 <= day && day <= days_in(year, month)
}

/// Whether ten bytes are digits and dashes as in YYYY-MM-DD.
#[tactic(auto, unfolding(crate::specs::Lines::has_date_form))]
fn has_date_form(bytes: &[u8]) -> bool
    requires { length bytes.now ≡ 10 }
    ensures { result ≡ form_meant bytes.now }
{
    are_two_digits(bytes, 0)
        && are_two_digits(bytes, 2)
        && bytes[4] == b'-'
        && are_two_digits(bytes, 5)
        && bytes[7] == b'-'
        && are_two_digits(bytes, 8)
}

/// Whether bytes are a day that there is, as YYYY-MM-DD.
#[tactic(auto, unfolding(crate::specs::Lines::is_date))]
pub(crate) fn is_date(bytes: &[u8]) -> bool
    ensures { result ≡ date_meant bytes.now }
{
    if bytes.len() != 10 || !has_date_form(bytes) {
        return false;
    }
    let year = two_digits(bytes, 0) * 100 + two_digits(bytes, 2);
    is_day(year, two_digits(bytes, 5), two_digits(bytes, 8))
}
