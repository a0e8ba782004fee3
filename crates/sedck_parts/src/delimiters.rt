//! Commands that have their own delimiter in a bracket list, where POSIX ends the expression, and what most seds make of them.

use crate::reading::{Place, Reading};
use std::alloc::{AllocError, Global};

/// A command or an address that may be written with another delimiter, so that its lists have what they seem to have.
#[derive(Clone, Copy)]
pub struct Mend {
    /// The offset of its first delimiter.
    pub first: usize,
    /// That of the one between an expression and a replacement.
    pub middle: Option<usize>,
    /// That of its last one.
    pub last: usize,
    /// A delimiter that it doesn't have in any place.
    pub other: u8,
    /// Whether it is an address between slashes: before another delimiter comes a backslash.
    pub is_bare: bool,
}

impl Mend {
    /// Whether the byte at this offset is one of its delimiters.
    pub fn has(self, offset: usize) -> bool {
        offset == self.first || Some(offset) == self.middle || offset == self.last
    }

    /// Whether the byte at this offset is between its delimiters.
    pub fn is_around(self, offset: usize) -> bool {
        self.first < offset && offset < self.last
    }
}

/// Delimiters that are nothing else in an expression, and nothing in a replacement.
const OTHERS: &[u8] = b",|:@%#;~!=";

/// The only one of them, and of `/`, that some seds read otherwise where it is escaped: the end of an alternative.
const ALTERNATION: u8 = b'|';

/// The state of looking for what is to be mended.
#[derive(Clone, Copy)]
struct Search<'a> {
    text: &'a [u8],
    reading: Reading,
    first: usize,
    middle: Option<usize>,
    is_bare: bool,
    /// Whether a list has the delimiter.
    has_own: bool,
    /// The same of the list that is read, and whether seds may read that list in another way.
    is_own: bool,
    is_odd: bool,
    /// Whether seds may read what is read in another way.
    is_unclear: bool,
}

/// What can be mended in the text, in order. Lists are left alone that have the delimiter and a class, a symbol, a backslash or a newline, or
/// begin with a bracket, and so are commands with an escaped delimiter in an interval, or with one that may mean something else.
pub fn mends_in(alloc: Global, text: &[u8]) -> Result<Vec<Mend>, AllocError> {
    let mut mends = Vec::new(alloc);
    let mut search = Search::of(text);
    for (index, byte) in text.iter().enumerate() {
        if let Some(mend) = search.read(index, *byte) {
            mends.push(mend)?;
        }
    }
    Ok(mends)
}

/// What can be mended in the text and has the byte at this offset.
pub fn mend_at(text: &[u8], offset: usize) -> Option<Mend> {
    let mut search = Search::of(text);
    for (index, byte) in text.iter().enumerate() {
        match search.read(index, *byte) {
            Some(mend) if mend.first <= offset && offset <= mend.last => return Some(mend),
            _ => {}
        }
    }
    None
}

impl Search<'_> {
    /// At the beginning of the text.
    fn of(text: &[u8]) -> Search<'_> {
        Search {
            text,
            reading: Reading::SCRIPT,
            first: 0,
            middle: None,
            is_bare: false,
            has_own: false,
            is_own: false,
            is_odd: false,
            is_unclear: false,
        }
    }

    /// Reads the byte at this index: what can be mended, if that ends there.
    fn read(&mut self, index: usize, byte: u8) -> Option<Mend> {
        let before = self.reading;
        let after = before.after(byte);
        self.reading = after;
        if before.is_in_list() {
            self.read_list(byte, before);
            return None;
        }
        let (was, is) = (before.is_in_expression(), after.is_in_expression());
        let is_end = was && !is;
        if !was && is {
            self.begin(index, before, after.delimiter);
        } else if is_end && after.place == Place::Replacement {
            self.middle = Some(index);
        } else if is_end || (before.place == Place::Replacement && after.place == Place::Flags) {
            return self.ended(index);
        } else if after.place == Place::ListBegin {
            self.is_own = false;
            self.is_odd = false;
        } else {
            // A newline isn't read alike in each part.
            let is_fixed = before.place == Place::Interval
                || (before.is_escaped && byte == ALTERNATION);
            let is_own = is_fixed && byte == before.delimiter;
            self.is_unclear = self.is_unclear || is_own || byte == b'\n';
        }
        None
    }

    /// Begins a command or an address that has this delimiter there.
    fn begin(&mut self, index: usize, before: Reading, delimiter: u8) {
        self.first = index;
        self.middle = None;
        self.is_bare = before.place == Place::Command;
        self.has_own = false;
        self.is_unclear = delimiter != b'/' && !OTHERS.contains(&delimiter);
    }

    /// Reads a byte of a list.
    fn read_list(&mut self, byte: u8, before: Reading) {
        let is_first = matches!(before.place, Place::ListBegin | Place::ListNegated);
        self.is_own = self.is_own || byte == before.delimiter;
        self.is_odd = self.is_odd
            || matches!(byte, b'[' | b'\\' | b'\n')
            || (is_first && byte == b']');
        self.has_own = self.has_own || self.is_own;
        self.is_unclear = self.is_unclear || (self.is_own && self.is_odd);
    }

    /// What was begun, if it can be mended and ends with the delimiter at this offset.
    fn ended(self, last: usize) -> Option<Mend> {
        if !self.has_own || self.is_unclear {
            return None;
        }
        let part = self.text.get(self.first..=last).unwrap_or(&[]);
        let other = OTHERS.iter().find(|other| !part.contains(*other))?;
        Some(Mend {
            first: self.first,
            middle: self.middle,
            last,
            other: *other,
            is_bare: self.is_bare,
        })
    }
}

/// Whether the byte that is read last and this next one are the reader's delimiter and the backslash before it. With another delimiter the
/// backslash has no place.
pub fn escapes_delimiter(reading: Reading, next: Option<&u8>) -> bool {
    reading.is_escaped && next == Some(&reading.delimiter)
}

/// A command or an address from its first delimiter to its last one, with this delimiter in place of its own. Those in lists stay, and so do
/// escaped ones, without their backslashes. An address may get a backslash before it.
pub fn delimited(
    alloc: Global,
    part: &[u8],
    other: u8,
    is_bare: bool,
) -> Result<Vec<u8>, AllocError> {
    let mut written = Vec::new(alloc);
    let mut reading = Reading {
        place: Place::Delimiter,
        command: b's',
        ..Reading::SCRIPT
    };
    if is_bare {
        written.push(b'\\')?;
    }
    for (index, byte) in part.iter().enumerate() {
        let before = reading;
        reading = before.after(*byte);
        let next = part.get(index.saturating_add(1));
        let is_inside = before.is_escaped || before.is_in_list();
        let is_delimiter = Some(byte) == part.first() && !is_inside;
        if !escapes_delimiter(reading, next) {
            written.push(if is_delimiter { other } else { *byte })?;
        }
    }
    Ok(written)
}
