//! Words in bytes.

/// Whether the bytes are this text.
pub fn is(bytes: &[u8], text: &str) -> bool {
    bytes == text.as_bytes()
}

/// Whether the bytes are one of these words, between which spaces are.
pub fn is_word_of(bytes: &[u8], words: &str) -> bool {
    for word in words.split(' ') {
        if is(bytes, word) {
            return true;
        }
    }
    false
}

/// What the list has the word for.
pub fn named<T: Copy>(list: &[(T, &str)], word: &[u8]) -> Option<T> {
    for (meant, words) in list {
        if is_word_of(word, words) {
            return Some(*meant);
        }
    }
    None
}

/// What is before the last such byte, and what is after it; nothing and all if there is none.
pub(crate) fn split_last(bytes: &[u8], byte: u8) -> (&[u8], &[u8]) {
    let Some(last) = bytes.iter().rposition(|other| *other == byte) else {
        return (&[], bytes);
    };
    let behind = bytes.get(last.saturating_add(1)..).unwrap_or(&[]);
    (bytes.get(..last).unwrap_or(&[]), behind)
}

/// The word after the blanks at the beginning, and what is after it.
pub(crate) fn split_word(bytes: &[u8]) -> (&[u8], &[u8]) {
    let word = bytes.trim_ascii_start();
    let end = word
        .iter()
        .position(u8::is_ascii_whitespace)
        .unwrap_or(word.len());
    (
        word.get(..end).unwrap_or(word),
        word.get(end..).unwrap_or(&[]),
    )
}
