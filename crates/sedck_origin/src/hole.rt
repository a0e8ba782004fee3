//! What isn't known before a run, and takes a place in a text.

/// What isn't known before a run, and takes a place in a text.
#[derive(Clone, Copy, PartialEq, Eq)]
pub struct Hole {
    /// The file has what is replaced from this offset on ..
    pub start: usize,
    /// .. to before this one.
    pub end: usize,
    pub way: Way,
}

/// How what replaces a hole becomes a part of a word (XCU 2.6).
#[derive(Clone, Copy, PartialEq, Eq)]
pub enum Way {
    /// As it is: a shell expands it between double quotes.
    Quoted,
    /// Split into words, which may match names of files: a shell expands it outside of quotes.
    Bare,
    /// As any number of words, also between double quotes: `"$@"`, and `{a,b}` where a shell expands braces.
    Several,
    /// It is there before a shell reads the text, between quotes: a quote in it would end them.
    MadeQuoted,
    /// The same, outside of quotes: blanks and operators in it count as well.
    MadeBare,
}

impl Way {
    /// Whether one word may become several, or none.
    pub fn is_split(self) -> bool {
        matches!(self, Way::Bare | Way::Several | Way::MadeBare)
    }

    /// Whether it is there before a shell reads the text.
    pub fn is_made(self) -> bool {
        matches!(self, Way::MadeQuoted | Way::MadeBare)
    }
}

/// The name of the variable, or of the other thing, whose value fills the hole: that of `$NAME`, `${NAME}`, `${NAME-word}`, `$(NAME)` and
/// `@NAME@`; none where the hole is filled by a command. `written` is what the file has in place of the hole.
pub fn hole_name(written: &[u8]) -> Option<&[u8]> {
    match written {
        [b'$', b'(' | b'{', name @ ..] | [b'$' | b'@', name @ ..] => name_of(name),
        _ => None,
    }
}

/// The letters, digits and underscores at the beginning, if there are any.
fn name_of(text: &[u8]) -> Option<&[u8]> {
    let length = text
        .iter()
        .position(|byte| !is_name_byte(*byte))
        .unwrap_or(text.len());
    text.get(..length).filter(|name| !name.is_empty())
}

/// Whether a name of a variable may have the byte.
pub fn is_name_byte(byte: u8) -> bool {
    byte.is_ascii_alphanumeric() || byte == b'_'
}
