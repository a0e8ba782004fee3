//! Delimiters: the first of a list that is in none of the parts, so that no part has an escaped one.

use sedck_script::Part;

/// The delimiters, from the one that is looked at first: signs, then the rest of ASCII, control characters last.
const DELIMITERS: &[u8; 124] =
    b"/,:|#%@!~=_;\"$&'()*+-.0123456789<>?ABCDEFGHIJKLMNOPQRSTUVWXYZ[]^`abcdefghijklmnopqrstuvwxyz{}\
      \x01\x02\x03\x04\x05\x06\x07\x08\t\x0b\x0c\r\x0e\x0f\x10\x11\x12\x13\x14\x15\x16\x17\x18\x19\x1a\x1b\x1c\x1d\x1e\x1f ";

/// Those that may be inside a part after a backslash, and are read alike there by all seds.
const ESCAPABLE: &[u8; 9] = b"/,;!@#%~_";

/// A delimiter that is in neither text and in no text of the replacement. Without one, the parts have to escape one that isn't among the
/// bytes that can't be escaped: those of longer texts.
pub(crate) fn delimiter(first: &[u8], second: &[u8], parts: &[Part]) -> u8 {
    for byte in DELIMITERS {
        if !first.contains(byte) && !second.contains(byte) && !is_in_texts(parts, *byte, 1) {
            return *byte;
        }
    }
    for byte in ESCAPABLE {
        if !is_in_texts(parts, *byte, 2) {
            return *byte;
        }
    }
    b'/'
}

/// Whether the byte is in a text of the replacement that is this long at least.
fn is_in_texts(parts: &[Part], byte: u8, least: usize) -> bool {
    parts.iter().any(
        |part| matches!(part, Part::Text(text) if text.len() >= least && text.contains(&byte)),
    )
}
