//! What a text begins with, and which bytes it has.

use sedck_report::{line_len, skipped};

pub(crate) const DIGITS: &str = "0123456789";

/// What labels, and names in general, may have.
pub(crate) const OF_NAMES: &str =
    "ABCDEFGHIJKLMNOPQRSTUVWXYZabcdefghijklmnopqrstuvwxyz0123456789_.-";

/// Whether the byte is a space or a tab.
pub fn is_blank(byte: u8) -> bool {
    byte == b' ' || byte == b'\t'
}

/// Whether the byte ends a word.
pub(crate) fn ends_word(byte: &u8) -> bool {
    is_blank(*byte)
}

/// Whether the byte ends most commands.
pub(crate) fn ends_command(byte: &u8) -> bool {
    is_among(*byte, ";\n")
}

/// The byte at this offset; a newline where the text has none there.
pub(crate) fn byte_at(text: &[u8], offset: usize) -> u8 {
    text.get(offset).copied().unwrap_or(b'\n')
}

/// Whether the byte is one of these.
pub(crate) fn is_among(byte: u8, bytes: &str) -> bool {
    bytes.as_bytes().contains(&byte)
}

/// Whether the text has one of these bytes.
pub(crate) fn has_one_of(text: &[u8], bytes: &str) -> bool {
    until_any(text, bytes).len() < text.len()
}

/// Whether the text has all of this somewhere.
pub(crate) fn has(text: &[u8], wanted: &str) -> bool {
    for start in 0..text.len() {
        if skipped(text, start).starts_with(wanted.as_bytes()) {
            return true;
        }
    }
    false
}

/// Whether the text begins with one of these words.
pub(crate) fn begins_with_one(text: &[u8], words: &[&str]) -> bool {
    for word in words {
        if text.starts_with(word.as_bytes()) {
            return true;
        }
    }
    false
}

/// The text after those of these bytes with which it begins.
pub(crate) fn after_any<'a>(text: &'a [u8], bytes: &str) -> &'a [u8] {
    for (index, byte) in text.iter().enumerate() {
        if !is_among(*byte, bytes) {
            return skipped(text, index);
        }
    }
    &[]
}

/// The text after the blanks with which it begins.
pub(crate) fn without_blanks(text: &[u8]) -> &[u8] {
    after_any(text, " \t")
}

/// The text after the digits and blanks with which it begins.
pub(crate) fn from_verb(text: &[u8]) -> &[u8] {
    after_any(text, " \t0123456789")
}

/// The text before those of these bytes with which it ends.
pub(crate) fn before_any<'a>(text: &'a [u8], bytes: &str) -> &'a [u8] {
    let mut length = text.len();
    for byte in text.iter().rev() {
        if !is_among(*byte, bytes) {
            break;
        }
        length = length.saturating_sub(1);
    }
    first_bytes(text, length)
}

/// Whether the text ends with this byte after a backslash that isn't escaped itself.
pub(crate) fn ends_escaped(text: &[u8], byte: u8) -> bool {
    let before = first_bytes(text, text.len().saturating_sub(1));
    let backslashes = before.len().saturating_sub(before_any(before, "\\").len());
    text.last().copied() == Some(byte) && backslashes % 2 == 1
}

/// So many bytes of the text, or none where it has fewer.
pub(crate) fn first_bytes(text: &[u8], length: usize) -> &[u8] {
    text.get(..length).unwrap_or(&[])
}

/// The text before the first of these bytes.
pub(crate) fn until_any<'a>(text: &'a [u8], bytes: &str) -> &'a [u8] {
    for (index, byte) in text.iter().enumerate() {
        if is_among(*byte, bytes) {
            return first_bytes(text, index);
        }
    }
    text
}

/// The text before the `;` or the newline that ends a command.
pub(crate) fn first_command(text: &[u8]) -> &[u8] {
    until_any(text, ";\n")
}

/// The text after that `;` or newline.
pub(crate) fn behind_command(text: &[u8]) -> &[u8] {
    skipped(text, first_command(text).len().saturating_add(1))
}

/// The label or other name with which the text begins.
pub(crate) fn first_name(text: &[u8]) -> &[u8] {
    let length = text.len().saturating_sub(after_any(text, OF_NAMES).len());
    first_bytes(text, length)
}

/// The text before its first newline.
pub(crate) fn first_line(text: &[u8]) -> &[u8] {
    &text[..line_len(text)]
}
