//! Characters of UTF-8 in a script, which may have bytes that are part of none.

use sedck_report::{is_printable, shown_line};
use std::alloc::{AllocError, Global};
use std::str;
use ucd_category::{GeneralCategory, GeneralCategoryGroup};
use ucd_derived::is_default_ignorable_code_point;

/// Which characters of a script are shown as they are.
#[derive(Clone, Copy)]
pub enum Letters {
    /// Those of printable ASCII.
    Ascii,
    /// Those of UTF-8 that can be seen, and told from a blank.
    Unicode,
}

impl Letters {
    /// The start of a character at this place, or the next one before it.
    pub(crate) fn start_at_or_before(self, bytes: &[u8], place: usize) -> usize {
        let mut start = place;
        for _ in 0..3 {
            if self.is_inside(bytes, start) {
                start = start.saturating_sub(1);
            }
        }
        start
    }

    /// The start of a character at this place, or the next one after it.
    pub(crate) fn start_at_or_after(self, bytes: &[u8], place: usize) -> usize {
        let mut start = place;
        for _ in 0..3 {
            if self.is_inside(bytes, start) {
                start = start.saturating_add(1);
            }
        }
        start
    }

    /// Whether the byte at this place may be a later one of a character.
    fn is_inside(self, bytes: &[u8], place: usize) -> bool {
        matches!(self, Letters::Unicode) && matches!(bytes.get(place), Some(0x80..=0xbf))
    }
}

/// How many characters the byte is shown as, at most where it is a part of a character.
pub(crate) fn width_of(letters: Letters, byte: u8) -> usize {
    if is_printable(byte) || (byte >= 0x80 && matches!(letters, Letters::Unicode)) {
        1
    } else {
        4
    }
}

/// The character of UTF-8 with which the bytes begin, and how many bytes it has.
pub(crate) fn first_letter(bytes: &[u8]) -> Option<(char, usize)> {
    for length in 1..=4usize {
        let part = bytes.get(..length)?;
        if let Ok(text) = str::from_utf8(part) {
            let letter = text.chars().next()?;
            return Some((letter, length));
        }
    }
    None
}

/// How many bytes are marked for so many at the front, no more than there are unless there is none: the first character as a whole where it
/// is shown as it is, and so the last one.
pub fn mark_len(letters: Letters, bytes: &[u8], length: usize) -> usize {
    let first = match letters {
        Letters::Ascii => 1,
        Letters::Unicode => shown_letter_of(bytes).map_or(1, |(_, length)| length),
    };
    let all = letters.start_at_or_after(bytes, length.min(bytes.len()));
    all.max(first)
}

/// The bytes of a line as they are shown: a tab as four spaces, and what isn't shown as it is byte by byte, as `\x` and two digits.
pub fn line_in(alloc: Global, letters: Letters, bytes: &[u8]) -> Result<String, AllocError> {
    match letters {
        Letters::Ascii => shown_line(alloc, bytes),
        Letters::Unicode => unicode_line(alloc, bytes),
    }
}

/// The bytes of a line, with the characters of UTF-8.
fn unicode_line(alloc: Global, bytes: &[u8]) -> Result<String, AllocError> {
    let mut shown = String::new(alloc);
    let mut next = 0usize;
    for index in 0..bytes.len() {
        if index >= next {
            let rest = bytes.get(index..).unwrap_or(&[]);
            let length = push_first(alloc, &mut shown, rest)?;
            next = index.saturating_add(length);
        }
    }
    Ok(shown)
}

/// Adds the character with which the bytes begin, or what is shown for the byte; how many bytes that are.
fn push_first(alloc: Global, shown: &mut String, bytes: &[u8]) -> Result<usize, AllocError> {
    if let Some((letter, length)) = shown_letter_of(bytes) {
        shown.push(letter)?;
        return Ok(length);
    }
    let byte = shown_line(alloc, bytes.get(..1).unwrap_or(&[]))?;
    shown.push_str(byte.as_str())?;
    Ok(1)
}

/// The character with which the bytes begin, where it can be seen, and how many bytes it has.
fn shown_letter_of(bytes: &[u8]) -> Option<(char, usize)> {
    let (letter, length) = first_letter(bytes)?;
    (!is_hidden(letter)).then_some((letter, length))
}

/// Whether the character isn't seen, or turns what is around it: a separator but the blank, what Unicode has as a control, a format, for private use
/// or not at all, and its `Default_Ignorable_Code_Point`.
pub(crate) fn is_hidden(letter: char) -> bool {
    let category = GeneralCategory::for_char(letter);
    let is_shapeless = GeneralCategoryGroup::Other.contains(category)
        || GeneralCategoryGroup::Separator.contains(category)
        || is_default_ignorable_code_point(letter);
    letter != ' ' && is_shapeless
}
