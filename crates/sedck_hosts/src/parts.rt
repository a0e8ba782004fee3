//! Parts of a file, and its lines.

pub(crate) use sedck_kinds::{is, is_word_of, named};
use sedck_origin::{Result, Unit, has_byte};

/// What names of variables are made of.
const NAME_BYTES: &str = "abcdefghijklmnopqrstuvwxyzABCDEFGHIJKLMNOPQRSTUVWXYZ0123456789_";

/// A part of a file: from the first offset on to before the second one.
#[derive(Clone, Copy)]
pub(crate) struct Part<'a> {
    pub file: &'a [u8],
    pub start: usize,
    pub end: usize,
}

impl<'a> Part<'a> {
    /// All of a file.
    pub fn whole(file: &'a [u8]) -> Part<'a> {
        let (start, end) = (0, file.len());
        Part { file, start, end }
    }

    /// The part of the same file between these offsets.
    pub fn between(self, start: usize, end: usize) -> Part<'a> {
        let file = self.file;
        Part { file, start, end }
    }

    /// The same from this offset on.
    pub fn from(self, start: usize) -> Part<'a> {
        self.between(start, self.end)
    }

    /// The same to before this offset.
    pub fn to(self, end: usize) -> Part<'a> {
        self.between(self.start, end)
    }

    /// The same without so many bytes at its beginning.
    pub fn skip(self, count: usize) -> Part<'a> {
        self.from(self.start.saturating_add(count))
    }

    /// Its bytes.
    pub fn bytes(self) -> &'a [u8] {
        self.file.get(self.start..self.end).unwrap_or(&[])
    }

    /// Its bytes before this part of it.
    pub fn before(self, rest: Part) -> &'a [u8] {
        self.to(rest.start).bytes()
    }

    /// How many bytes it has.
    pub fn len(self) -> usize {
        self.end.saturating_sub(self.start)
    }

    /// Its first byte.
    pub fn first(self) -> Option<u8> {
        self.bytes().first().copied()
    }

    /// Whether its bytes begin with this text.
    pub fn starts_with(self, text: &str) -> bool {
        self.bytes().starts_with(text.as_bytes())
    }

    /// Whether one of these bytes begins the part.
    pub fn begins_with_any(self, bytes: &str) -> bool {
        matches!(self.first(), Some(byte) if is_in(byte, bytes))
    }

    /// The same without this byte at its end, if it has that there.
    pub fn before_last(self, byte: u8) -> Part<'a> {
        let has_it = self.bytes().last() == Some(&byte);
        self.to(self.end.saturating_sub(usize::from(has_it)))
    }

    /// Whether the file has the byte where the part begins, which may be its end.
    pub fn begins_with(self, byte: u8) -> bool {
        has_byte(self.file, self.start, byte)
    }

    /// The same from the first byte on that is one of these, or is none of them.
    fn from_first(self, bytes: &str, is_one: bool) -> Part<'a> {
        for (index, byte) in self.bytes().iter().enumerate() {
            if is_in(*byte, bytes) == is_one {
                return self.skip(index);
            }
        }
        self.from(self.end)
    }

    /// The same from the first byte on that is none of these.
    pub fn after_any(self, skipped: &str) -> Part<'a> {
        self.from_first(skipped, false)
    }

    /// The same from the first byte on that is no blank.
    pub fn after_blanks(self) -> Part<'a> {
        self.after_any(" \t")
    }

    /// The same from the first byte on that is no letter, digit or underscore.
    pub fn after_name(self) -> Part<'a> {
        self.after_any(NAME_BYTES)
    }

    /// The same from the first of these bytes on.
    pub fn from_any(self, wanted: &str) -> Part<'a> {
        self.from_first(wanted, true)
    }

    /// The same without blanks at its end.
    pub fn before_blanks(self) -> Part<'a> {
        let mut end = self.end;
        for byte in self.bytes().iter().rev() {
            if !is_in(*byte, " \t") {
                break;
            }
            end = end.saturating_sub(1);
        }
        self.to(end)
    }

    /// The word that begins the part and ends at a blank, and the part after it and its blanks.
    pub fn split_word(self) -> (&'a [u8], Part<'a>) {
        let rest = self.from_any(" \t");
        (self.before(rest), rest.after_blanks())
    }

    /// The same without the words at its beginning, so many at most, that are passed.
    pub fn after_words<F: Fn(&[u8]) -> bool>(self, most: usize, is_passed: F) -> Part<'a>
        requires { F.IsAlwaysCallable is_passed }
    {
        let mut rest = self;
        for _ in 0..most {
            let (word, behind) = rest.split_word();
            if !is_passed(word) {
                break;
            }
            rest = behind;
        }
        rest
    }

    /// Its first line without its newline and carriage return, and what is after that; nothing where it is empty. Where lines are joined, those
    /// that continue the line by a backslash before a newline belong to it.
    pub fn split_line(self, is_joined: bool) -> Option<(Part<'a>, Part<'a>)> {
        let mut is_quoted = false;
        for (index, byte) in self.bytes().iter().enumerate() {
            if *byte == b'\n' && !is_quoted {
                let end = self.skip(index);
                return Some((self.to(end.start).before_last(b'\r'), end.skip(1)));
            }
            is_quoted = is_joined && *byte == b'\\' && !is_quoted;
        }
        (self.len() > 0).then_some((self, self.from(self.end)))
    }

    /// Whether only blanks and a comment are in the part.
    pub fn is_ended(self) -> bool {
        let rest = self.after_blanks();
        rest.start >= rest.end || rest.begins_with(b'#')
    }

    /// Adds its bytes.
    pub fn push(self, units: &mut Vec<Unit>) -> Result<()> {
        for (index, byte) in self.bytes().iter().enumerate() {
            units.push(Unit::Byte(*byte, self.start.saturating_add(index)))?;
        }
        Ok(())
    }

    /// Adds the newline that ends the line, if the file has one; a carriage return may stand before it.
    pub fn push_newline(self, units: &mut Vec<Unit>) -> Result<()> {
        let length = usize::from(has_byte(self.file, self.end, b'\r'));
        let offset = self.end.saturating_add(length);
        if has_byte(self.file, offset, b'\n') {
            units.push(Unit::Byte(b'\n', offset))?;
        }
        Ok(())
    }
}

/// Whether the text has the byte.
pub(crate) fn is_in(byte: u8, text: &str) -> bool {
    text.as_bytes().contains(&byte)
}

/// Brackets of one sort, of which the first is open.
#[derive(Clone, Copy)]
pub(crate) struct Brackets {
    opener: u8,
    /// How many more are open within it.
    count: usize,
}

impl Brackets {
    /// Those that this byte opens.
    pub fn new(opener: u8) -> Brackets {
        Brackets { opener, count: 0 }
    }

    /// What is open after this byte; nothing where it closes the first.
    pub fn after(self, byte: u8) -> Option<Brackets> {
        let closer = match self.opener {
            b'(' => b')',
            b'{' => b'}',
            _ => b']',
        };
        let count = match byte {
            _ if byte == self.opener => self.count.saturating_add(1),
            _ if byte == closer => self.count.checked_sub(1)?,
            _ => self.count,
        };
        Some(Brackets { count, ..self })
    }
}

/// Where the reference ends that begins the part with a byte, and has brackets or a single letter; the end of the part if it isn't
/// closed.
pub(crate) fn reference_end(part: Part) -> usize {
    let mut rest = part.skip(2);
    let opener = part.skip(1).first().unwrap_or(b' ');
    if !is_in(opener, "({") {
        return rest.start;
    }
    let mut brackets = Brackets::new(opener);
    for byte in rest.bytes() {
        rest = rest.skip(1);
        match brackets.after(*byte) {
            Some(open) => brackets = open,
            None => return rest.start,
        }
    }
    part.end
}
