//! Texts of dateTime (XML Schema Part 2, version 1.1, section 3.3.7).

ghost use Rattle.std.specs.Prelude.{◌≡◌, ◌<◌, ◌≤◌, ◌+◌, length, slice_index, IsTrue};
ghost use Rattle.std.specs.Char.{is_ascii_digit};
ghost use Rattle.std.specs.List.{prefix_len};
ghost use Rattle.std.specs.Str.Parse.{digits_value};
ghost use Rattle.xs_text.specs.Digits.{are_digits};
ghost use Rattle.xs_text.specs.DateTime.{
  stands_for,
  has_form,
  HasDigits,
  field,
  is_year,
  is_leap_year,
  days_in_month,
  is_day,
  is_time,
  fraction_len,
  is_zero_fraction,
  is_time_with_fraction,
  is_offset,
  is_zone,
  without_minus,
  is_day_and_time,
  is_date_time,
};

use crate::digits;

/// Whether the text is a dateTime.
#[tactic(auto, unfolding(crate::specs::DateTime::is_date_time))]
pub fn is_date_time(text: &[u8]) -> bool
    ensures { result ≡ is_date_time text.now }
{
    let (year, rest) = digits::split_once(without_minus(text), b'-');
    is_year(year) && is_day_and_time(year, rest)
}

/// Whether the text is `MM-DDThh:mm:ss` in that year, with a fraction or none and a zone or none.
#[tactic(auto, unfolding(crate::specs::DateTime::is_day_and_time))]
fn is_day_and_time(year: &[u8], text: &[u8]) -> bool
    requires { IsTrue (are_digits year.now) }
    ensures { result ≡ is_day_and_time (digits_value 10 year.now) text.now }
{
    if text.len() < 14 {
        return false;
    }
    let tail = &text[14..];
    let (fraction, zone) = tail.split_at(fraction_len(tail));
    is_day(year, &text[..5])
        && text[5] == b'T'
        && is_time_with_fraction(&text[6..14], fraction)
        && is_zone(zone)
}

/// The text without a minus at its front.
fn without_minus(text: &[u8]) -> &[u8]
    ensures { result.now ≡ without_minus text.now }
{
    match text {
        [b'-', rest @ ..] => rest,
        _ => text,
    }
}

/// Whether the text has four digits, or more without a leading zero.
#[tactic(auto, unfolding(crate::specs::DateTime::is_year))]
fn is_year(text: &[u8]) -> bool
    ensures value { result ≡ is_year text.now }
    ensures digits { IsTrue result → IsTrue (are_digits text.now) }
{
    digits::are_digits(text) && (text.len() == 4 || (text.len() > 4 && text[0] != b'0'))
}

/// Whether the text is `MM-DD`, a day of that year.
#[tactic(auto, unfolding(crate::specs::DateTime::is_day))]
fn is_day(year: &[u8], text: &[u8]) -> bool
    requires { IsTrue (are_digits year.now) }
    ensures { result ≡ is_day (digits_value 10 year.now) text.now }
{
    if !has_form(b"99-99", text) {
        return false;
    }
    let month = field(0, text);
    let day = field(3, text);
    (1..=12).contains(&month) && (1..=days_in_month(year, month)).contains(&day)
}

/// How many days a month of a year has.
#[tactic(auto, unfolding(crate::specs::DateTime::days_in_month))]
fn days_in_month(year: &[u8], month: u8) -> u8
    requires { IsTrue (are_digits year.now) }
    ensures { result ≡ days_in_month (digits_value 10 year.now) month }
{
    match month {
        2 if is_leap_year(year) => 29,
        2 => 28,
        4 | 6 | 9 | 11 => 30,
        _ => 31,
    }
}

/// Whether a year of any length is a leap year.
#[tactic(auto, unfolding(crate::specs::DateTime::is_leap_year))]
fn is_leap_year(year: &[u8]) -> bool
    requires { IsTrue (are_digits year.now) }
    ensures { result ≡ is_leap_year (digits_value 10 year.now) }
{
    // The rule repeats every 400 years.
    let mut of_cycle: u16 = 0;
    for digit in year {
        of_cycle = (of_cycle * 10 + u16::from(*digit - b'0')) % 400;
    }
    of_cycle % 4 == 0 && (of_cycle % 100 != 0 || of_cycle == 0)
}

/// Whether the text is `hh:mm:ss` up to 23:59:59, or 24:00:00 beside a fraction of zeros alone.
#[tactic(auto, unfolding(crate::specs::DateTime::is_time_with_fraction))]
fn is_time_with_fraction(time: &[u8], fraction: &[u8]) -> bool
    ensures { result ≡ is_time_with_fraction time.now fraction.now }
{
    is_time(time) || (has_form(b"24:00:00", time) && is_zero_fraction(fraction))
}

/// Whether the text is `hh:mm:ss` from 00:00:00 to 23:59:59.
#[tactic(auto, unfolding(crate::specs::DateTime::is_time))]
fn is_time(text: &[u8]) -> bool
    ensures { result ≡ is_time text.now }
{
    if !has_form(b"99:99:99", text) {
        return false;
    }
    let hours = field(0, text);
    let minutes = field(3, text);
    let seconds = field(6, text);
    hours <= 23 && minutes <= 59 && seconds <= 59
}

/// How many bytes at the front are a point and digits; 0 where there is no such fraction.
#[tactic(auto, unfolding(crate::specs::DateTime::fraction_len))]
fn fraction_len(text: &[u8]) -> usize
    ensures value { result ≡ fraction_len text.now }
    ensures within { result ≤ length text.now }
{
    match text {
        [b'.', digits @ ..] => match digits_len(digits) {
            0 => 0,
            len => 1 + len,
        },
        _ => 0,
    }
}

/// How many digits stand at the front.
fn digits_len(text: &[u8]) -> usize
    ensures value { result ≡ prefix_len is_ascii_digit text.now }
    ensures within { result ≤ length text.now }
{
    text.iter().take_while(|c| c.is_ascii_digit()).count()
}

/// Whether only zeros stand behind the point.
fn is_zero_fraction(text: &[u8]) -> bool
    ensures { result ≡ is_zero_fraction text.now }
{
    text.iter().skip(1).all(|c| *c == b'0')
}

/// Whether the text is nothing, `Z`, or a sign and an offset.
#[tactic(auto, unfolding(crate::specs::DateTime::is_zone))]
fn is_zone(text: &[u8]) -> bool
    ensures { result ≡ is_zone text.now }
{
    match text {
        [] | [b'Z'] => true,
        [b'+' | b'-', offset @ ..] => is_offset(offset),
        _ => false,
    }
}

/// Whether the text is `hh:mm` from 00:00 to 14:00.
#[tactic(auto, unfolding(crate::specs::DateTime::is_offset))]
fn is_offset(text: &[u8]) -> bool
    ensures { result ≡ is_offset text.now }
{
    if !has_form(b"99:99", text) {
        return false;
    }
    let hours = field(0, text);
    let minutes = field(3, text);
    (hours <= 13 && minutes <= 59) || (hours == 14 && minutes == 0)
}

/// Whether the text has a digit for each `9` of the picture, and elsewhere the picture's own byte.
#[tactic(auto, unfolding(crate::specs::DateTime::has_form))]
fn has_form(picture: &[u8], text: &[u8]) -> bool
    ensures { result ≡ has_form picture.now text.now }
{
    text.len() == picture.len() && text.iter().zip(picture).all(|(c, p)| stands_for(*c, *p))
}

/// Whether a byte may stand for one of a picture.
fn stands_for(c: u8, p: u8) -> bool
    ensures { result ≡ stands_for c p }
{
    if p == b'9' {
        c.is_ascii_digit()
    } else {
        c == p
    }
}

/// The number of the two digits at a place.
#[tactic(auto, unfolding(crate::specs::DateTime::field))]
fn field(place: usize, text: &[u8]) -> u8
    requires { HasDigits place text.now }
    ensures { result ≡ field place text.now }
{
    10 * (text[place] - b'0') + (text[place + 1] - b'0')
}
