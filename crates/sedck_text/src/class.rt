//! Classes of bytes.

ghost use Rattle.std.specs.Prelude.{◌≡◌, ◌≤◌, length};
ghost use Rattle.std.specs.List.{prefix_len};
ghost use Rattle.sedck_text.specs.Classes.{is_of};

use memchr::memchr;

/// Bytes that belong together in a script (POSIX.1-2024 XCU sed).
#[derive(Clone, Copy)]
pub enum Class {
    /// A space or a tab.
    Blank,
    /// From `0` to `9`.
    Digit,
    /// A letter, a digit, `_`, `.` or `-`.
    Label,
    /// What may be between addresses and a verb: a blank or `!`.
    Mark,
    /// What may be between two commands: a blank, a newline or `;`.
    Separator,
    /// What stands for itself in a replacement with this delimiter: any byte but the delimiter, backslash, newline and `&`.
    Plain(u8),
    /// Any byte but this one.
    Except(u8),
}

impl Class {
    /// Whether the byte is one of the class.
    pub fn has(self, byte: u8) -> bool
        ensures { result ≡ is_of self byte }
    {
        match self {
            Class::Blank => byte == b' ' || byte == b'\t',
            Class::Digit => byte.is_ascii_digit(),
            Class::Label => byte.is_ascii_alphanumeric() || b"_.-".contains(&byte),
            Class::Mark => byte == b' ' || byte == b'\t' || byte == b'!',
            Class::Separator => byte == b' ' || byte == b'\t' || byte == b'\n' || byte == b';',
            Class::Plain(delimiter) => {
                byte != delimiter && byte != b'\\' && byte != b'\n' && byte != b'&'
            }
            Class::Except(other) => byte != other,
        }
    }

    /// How many bytes of the class the text begins with.
    pub fn run_length(self, text: &[u8]) -> usize
        ensures value { result ≡ prefix_len (is_of self) text.now }
        ensures within { result ≤ length text.now }
    {
        match self {
            Class::Except(byte) => memchr(byte, text).unwrap_or(text.len()),
            _ => text.iter().take_while(|byte| self.has(**byte)).count(),
        }
    }
}
