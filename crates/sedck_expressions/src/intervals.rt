//! Intervals: the bounds between `\{` and `\}`.
ghost use Rattle.std.specs.Prelude.{◌≡◌, ◌≤◌, length, min, IsTrue, IfSome};
ghost use Rattle.std.specs.List.{list_all};
ghost use Rattle.std.specs.Option.{option_map};
ghost use Rattle.std.specs.Str.Parse.{digits_value};
ghost use Rattle.sedck_text.specs.Classes.{is_digit};
ghost use Rattle.sedck_text.specs.Cursors.{unread};
ghost use Rattle.sedck_expressions.specs.IntervalReading.{number_at, upper_at, bounds_at, interval_at};

use sedck_text::{Class, Cursor};

/// The value of the digits, where 256 stands for each greater one.
fn value_of(digits: &[u8]) -> u16
    requires { IsTrue (list_all is_digit digits.now) }
    ensures { result ≡ min (digits_value 10 digits.now) 256 }
{
    let mut value = 0;
    for digit in digits {
        value = (value * 10 + u16::from(*digit - b'0')).min(256);
    }
    value
}

/// The number at the start, where it has a digit and is at most 255, and the cursor behind it.
fn read_number<'a>(cursor: Cursor<'a>) -> Option<(u8, Cursor<'a>)>
    ensures value { option_map (λ x. (x.0, unread x.1)) result ≡ number_at (unread cursor.entry) }
    ensures same { IfSome result (λ x. x.1.whole ≡ cursor.entry.whole) }
    ensures shorter { IfSome result (λ x. length (unread x.1) ≤ length (unread cursor.entry)) }
{
    let (digits, behind) = cursor.split(Class::Digit);
    let value = value_of(digits);
    if digits.is_empty() || value > 255 {
        return None;
    }
    Some((value as u8, behind))
}

/// What follows the comma of an interval: the second number, if there is one, and the end.
fn read_upper<'a>(least: u8, cursor: Cursor<'a>) -> Option<(u8, Option<u8>, Cursor<'a>)>
    ensures value { option_map (λ x. (x.0, x.1, unread x.2)) result ≡ upper_at least (unread cursor.entry) }
    ensures same { IfSome result (λ x. x.2.whole ≡ cursor.entry.whole) }
    ensures shorter { IfSome result (λ x. length (unread x.2) ≤ length (unread cursor.entry)) }
{
    if let [b'\\', b'}', ..] = cursor.unread() {
        return Some((least, None, cursor.advance(2)));
    }
    let (most, behind) = read_number(cursor)?;
    match behind.unread() {
        [b'\\', b'}', ..] if least <= most => Some((least, Some(most), behind.advance(2))),
        _ => None,
    }
}

/// What follows the opening of an interval.
fn read_bounds<'a>(cursor: Cursor<'a>) -> Option<(u8, Option<u8>, Cursor<'a>)>
    ensures value { option_map (λ x. (x.0, x.1, unread x.2)) result ≡ bounds_at (unread cursor.entry) }
    ensures same { IfSome result (λ x. x.2.whole ≡ cursor.entry.whole) }
    ensures shorter { IfSome result (λ x. length (unread x.2) ≤ length (unread cursor.entry)) }
{
    let (least, behind) = read_number(cursor)?;
    match behind.unread() {
        [b'\\', b'}', ..] => Some((least, Some(least), behind.advance(2))),
        [b',', ..] => read_upper(least, behind.advance(1)),
        _ => None,
    }
}

/// The bounds of the interval at the start, and the cursor behind it.
#[tactic(auto, unfolding(crate::specs::IntervalReading::interval_at))]
pub(crate) fn read_interval<'a>(cursor: Cursor<'a>) -> Option<(u8, Option<u8>, Cursor<'a>)>
    ensures value { option_map (λ x. (x.0, x.1, unread x.2)) result ≡ interval_at (unread cursor.entry) }
    ensures same { IfSome result (λ x. x.2.whole ≡ cursor.entry.whole) }
    ensures shorter { IfSome result (λ x. length (unread x.2) ≤ length (unread cursor.entry)) }
{
    match cursor.unread() {
        [b'\\', b'{', ..] => read_bounds(cursor.advance(2)),
        _ => None,
    }
}
