//! Whether a script is the one that was given, where some commands have other delimiters.

ghost use Rattle.std.specs.Prelude.{◌≡◌, ◌≢◌, ◌⊎◌, ◌∷◌, ◌++◌, ◌<◌, true, false, length, IfOk, IfSome, List, ℕ};
ghost use Rattle.std.specs.List.{slice_range};
ghost use Rattle.sedck_plain.specs.Mended.{is_exchanged, is_member, position_after, IsForItself, IsPartGiven, IsPartKept, IsAddressGiven, IsCommandGiven, AreGiven, IsMended};
ghost use Rattle.sedck_plain.specs.Private.Escapes.{IsEscapeGiven};
ghost use Rattle.sedck_plain.specs.WrittenLists.{is_in_list as is_inside_list};
ghost use Rattle.sedck_plain.specs.declared.written.Position.TheVariants.{Outside};

use crate::written::{Position, after, is_in_list, is_passed};
use sedck_commands::{Location, ScriptFault};
use sedck_script::locate;
use std::alloc::{AllocError, Global};

/// Whether the script is the text, as seds read it that take a delimiter in a bracket list for a byte of the list: its commands have other
/// delimiters, of which none is in a list, and all else is the same. It is said only where that is so, and of no script that is refused.
pub fn is_mended(alloc: Global, text: &[u8], script: &[u8]) -> Result<bool, AllocError>
    ensures { IfOk result (λ is. is ≡ true → IsMended text.now script.now) }
{
    match locate(alloc, script) {
        Ok(located) => Ok(are_given(script, &located.locations, text)),
        Err(ScriptFault::OutOfMemory) => Err(AllocError),
        Err(_) => Ok(false),
    }
}

/// Whether the text is the script with these commands, where they have other delimiters.
fn are_given(script: &[u8], locations: &[Location], text: &[u8]) -> bool
    ensures { result ≡ true → AreGiven script.now 0 locations.now text.now }
{
    let mut from = 0;
    let mut rest = text;
    for location in locations {
        let Some(left) = command_left_at(script, from, *location, rest) else {
            return false;
        };
        rest = left;
        from = location.end;
    }
    match script.get(from..) {
        Some(last) => rest == last,
        None => false,
    }
}

/// What follows the command at this location in the text, which begins where the script has this offset.
fn command_left_at<'a>(
    script: &[u8],
    from: usize,
    location: Location,
    text: &'a [u8],
) -> Option<&'a [u8]>
    ensures { IfSome result (λ left. (begin : List ℕ) × (text.now ≡ slice_range script.now from location.start ++ begin)
        × IsCommandGiven (slice_range script.now location.start location.end) begin left.now) }
{
    let before = script.get(from..location.start)?;
    let begin = text.strip_prefix(before)?;
    let command = script.get(location.start..location.end)?;
    command_left(command, begin)
}

/// What follows the command in the text.
fn command_left<'a>(command: &[u8], text: &'a [u8]) -> Option<&'a [u8]>
    ensures { IfSome result (λ left. IsCommandGiven command.entry.now text.entry.now left.now) }
{
    let mut command = command;
    let mut text = text;
    'pieces: loop {
        if let Some(left) = text.strip_prefix(command) {
            return Some(left);
        }
        let [first, more @ ..] = command else {
            return None;
        };
        if *first == b's' {
            return substitution_left(more, text);
        }
        if *first == b'\\' {
            (command, text) = address_left(more, text)?;
            continue;
        }
        let [same, behind @ ..] = text else {
            return None;
        };
        if first != same {
            return None;
        }
        if *first == b'/' {
            (command, text) = kept_left(b'/', more, behind)?;
            continue;
        }
        if !is_passed(*first) {
            return None;
        }
        command = more;
        text = behind;
    }
}

/// What follows an address between other delimiters than slashes, of which the backslash isn't in this part.
fn address_left<'a, 'b>(part: &'a [u8], text: &'b [u8]) -> Option<(&'a [u8], &'b [u8])>
    ensures part { IfSome result (λ rests. (other : ℕ) × (begin : List ℕ) × (part.now ≡ other ∷ begin)
        × IsAddressGiven other begin text.now rests.0.now rests.1.now) }
    ensures shorter { IfSome result (λ rests. length rests.0.now < length part.now) }
{
    let [other, begin @ ..] = part else {
        return None;
    };
    let [sign, inside @ ..] = text else {
        return None;
    };
    if *sign == b'/' {
        return part_left(true, b'/', *other, begin, inside);
    }
    if *sign != b'\\' {
        return None;
    }
    let [given, inside @ ..] = inside else {
        return None;
    };
    if given == other {
        return kept_left(*other, begin, inside);
    }
    if !is_exchanged(*given) {
        return None;
    }
    part_left(true, *given, *other, begin, inside)
}

/// What follows a substitution in the text, of which the `s` isn't in this part.
fn substitution_left<'a>(part: &[u8], text: &'a [u8]) -> Option<&'a [u8]>
    ensures { IfSome result (λ left. IsCommandGiven (115 ∷ part.now) text.now left.now) }
{
    let [other, expression @ ..] = part else {
        return None;
    };
    let [sign, given, inside @ ..] = text else {
        return None;
    };
    if *sign != b's' || !is_exchanged(*given) {
        return None;
    }
    let (replacement, between) = part_left(true, *given, *other, expression, inside)?;
    let (flags, behind) = part_left(false, *given, *other, replacement, between)?;
    behind.strip_prefix(flags)
}

/// What follows an expression that both have, after its delimiter in each.
fn kept_left<'a, 'b>(delimiter: u8, part: &'a [u8], text: &'b [u8]) -> Option<(&'a [u8], &'b [u8])>
    ensures part { IfSome result (λ rests. IsPartKept delimiter part.entry.now text.entry.now rests.0.now rests.1.now) }
    ensures shorter { IfSome result (λ rests. length rests.0.now < length part.entry.now) }
{
    let mut part = part;
    let mut text = text;
    'bytes: loop {
        let [first, more @ ..] = part else {
            return None;
        };
        let [other, behind @ ..] = text else {
            return None;
        };
        if first != other {
            return None;
        }
        if *first == delimiter {
            return Some((more, behind));
        }
        if *first != b'\\' {
            part = more;
            text = behind;
            continue;
        }
        let [escaped, later @ ..] = more else {
            return None;
        };
        let [same, beyond @ ..] = behind else {
            return None;
        };
        if escaped != same {
            return None;
        }
        part = later;
        text = beyond;
    }
}

/// Whether the delimiter is nothing else in an expression or a replacement.
fn is_exchanged(byte: u8) -> bool
    ensures { result ≡ is_exchanged byte }
{
    b"/,|:@%#;~!=".contains(&byte)
}

/// What follows a part, after its delimiter in each.
fn part_left<'a, 'b>(
    lists: bool,
    given: u8,
    other: u8,
    part: &'a [u8],
    text: &'b [u8],
) -> Option<(&'a [u8], &'b [u8])>
    ensures part { IfSome result (λ rests. IsPartGiven lists given other Outside part.entry.now text.entry.now rests.0.now rests.1.now) }
    ensures shorter { IfSome result (λ rests. length rests.0.now < length part.entry.now) }
{
    let mut position = Position::Outside;
    let mut part = part;
    let mut text = text;
    'bytes: loop {
        let [first, more @ ..] = part else {
            return None;
        };
        let [last, behind @ ..] = text else {
            return None;
        };
        if is_for_itself(position, given, *last) {
            if first != last || *first == other {
                return None;
            }
            position = position_after(lists, position, *first);
            part = more;
            text = behind;
            continue;
        }
        if is_in_list(position) {
            return None;
        }
        if *last == given {
            if *first != other {
                return None;
            }
            return Some((more, behind));
        }
        let [escaped, beyond @ ..] = behind else {
            return None;
        };
        part = escape_left(given, other, *escaped, part)?;
        text = beyond;
    }
}

/// Whether the byte is of a list, or is neither the delimiter nor a backslash.
fn is_for_itself(position: Position, given: u8, byte: u8) -> bool
    ensures itself { result ≡ true → IsForItself given position byte }
    ensures sign { result ≡ false → is_inside_list position ≡ false → (byte ≡ given) ⊎ (byte ≡ 92) }
{
    if is_in_list(position) {
        return is_member(position, byte);
    }
    byte != given && byte != b'\\'
}

/// Whether the byte is one of a list whose end no sed mistakes.
fn is_member(position: Position, byte: u8) -> bool
    ensures { result ≡ is_member position byte }
{
    match position {
        Position::Inside => byte != b'[' && byte != b'\\',
        _ => byte != b'[' && byte != b'\\' && byte != b']',
    }
}

/// What follows a byte of a part that a backslash escapes in the text that was given. A delimiter has no backslash in the part.
fn escape_left(given: u8, other: u8, escaped: u8, part: &[u8]) -> Option<&[u8]>
    ensures { IfSome result (λ left. IsEscapeGiven given other escaped part.now left.now) }
{
    if escaped == given {
        return match part {
            [first, more @ ..] if *first == given && given != b'|' => Some(more),
            _ => None,
        };
    }
    match part {
        [first, second, more @ ..] if *first == b'\\' && *second == escaped && escaped != other => {
            Some(more)
        }
        _ => None,
    }
}

/// The position after a byte of an expression; a replacement has no lists.
fn position_after(lists: bool, position: Position, byte: u8) -> Position
    ensures { result ≡ position_after lists position byte }
{
    if lists {
        after(position, byte)
    } else {
        Position::Outside
    }
}
