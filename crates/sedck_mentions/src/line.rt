//! The line of an offset in a file, as far as it is read.

ghost use Rattle.std.specs.Prelude.{◌≡◌, ◌≤◌, ◌<◌, ◌+◌, ◌==◌, not, length};
ghost use Rattle.std.specs.List.{prefix_len};
ghost use Rattle.sedck_mentions.specs.Words.{is_path_byte as is_byte_of_path};
ghost use Rattle.sedck_mentions.specs.Lines.{start_of, is_blank as is_blank_byte, begins_comment as begins_comment_text, is_comment as is_comment_line};
ghost use Rattle.sedck_mentions.specs.Private.Pass.{line_at};

use crate::words::{is_name, is_path_byte};

/// The line of an offset, up to there.
#[derive(Clone, Copy)]
pub(crate) struct Line {
    /// Where it begins.
    pub start: usize,
    /// Where the path begins that may be right before the offset.
    pub path: usize,
    /// Whether it is a comment.
    pub is_comment: bool,
}

impl Line {
    /// The first line of the file.
    pub(crate) fn first(file: &[u8], has_macros: bool) -> Line
        ensures { result ≡ line_at has_macros file.now 0 }
    {
        Line {
            start: 0,
            path: 0,
            is_comment: is_comment(file, has_macros),
        }
    }

    /// The line of the next offset.
    pub(crate) fn after(self, file: &[u8], has_macros: bool, offset: usize) -> Line
        requires within { offset < length file.now }
        requires line { self ≡ line_at has_macros file.now offset }
        ensures { result ≡ line_at has_macros file.now (offset + 1) }
    {
        let byte = file[offset];
        if byte == b'\n' {
            let next = offset + 1;
            return Line {
                start: next,
                path: next,
                is_comment: is_comment(&file[next..], has_macros),
            };
        }
        let path = if is_path_byte(byte) {
            self.path
        } else {
            offset + 1
        };
        Line { path, ..self }
    }
}

/// Whether the text from the beginning of a line on is a comment.
fn is_comment(text: &[u8], has_macros: bool) -> bool
    ensures { result ≡ is_comment_line has_macros text.now }
{
    let from = blanks(text);
    begins_comment(&text[from..], has_macros)
}

/// Whether the text begins with a comment.
fn begins_comment(text: &[u8], has_macros: bool) -> bool
    ensures { result ≡ begins_comment_text has_macros text.now }
{
    text.starts_with(b"#") || (has_macros && is_name(text, b"dnl"))
}

/// How many blanks begin the text.
fn blanks(text: &[u8]) -> usize
    ensures value { result ≡ prefix_len is_blank_byte text.now }
    ensures within { result ≤ length text.now }
{
    let mut count = 0;
    while count < text.len() && is_blank(text[count]) {
        count += 1;
    }
    count
}

/// Whether the byte is a blank.
fn is_blank(byte: u8) -> bool
    ensures { result ≡ is_blank_byte byte }
{
    byte == b' ' || byte == b'\t'
}
