//! Macros of M4 in sources of Autoconf.

use sedck_kinds::Kind;
use sedck_origin::{Origin, Traced, is_name_byte};
use sedck_shell::ShellWord;

/// The macros of M4 in a file; all else is false of them where it is no source of Autoconf.
#[derive(Drop)]
pub(crate) struct Macros<'a> {
    /// Whether macros may change what the file has.
    pub are_read: bool,
    file: &'a [u8],
}

impl<'a> Macros<'a> {
    /// Those of a file of this kind.
    pub fn of(kind: Kind, file: &'a [u8]) -> Macros<'a> {
        let are_read = kind == Kind::Autoconf;
        Macros { are_read, file }
    }

    /// Whether the words of a command are prose within brackets: the name is right after one, and the next word is letters alone.
    pub fn is_prose(&self, name: &ShellWord, others: &[ShellWord]) -> bool {
        let before = self.file.get(..name.start).unwrap_or(&[]);
        let is_plain = others.first().is_none_or(|next| {
            let mut units = next.units.iter();
            let is_word = !next.is_quoted && next.units.len() > 1;
            is_word && units.all(|unit| unit.byte().is_some_and(|byte| byte.is_ascii_alphabetic()))
        });
        self.are_read && before.ends_with(b"[") && is_plain && name.is("sed")
    }

    /// Whether macros may change the script, which has this text: a hole is one of M4.
    pub fn change(&self, text: &Traced) -> bool {
        self.are_read && text.origins.iter().any(|origin| self.is_hole(*origin))
    }

    /// Whether it is a quadrigraph of Autoconf, or a parameter of a macro.
    fn is_hole(&self, origin: Origin) -> bool {
        let Origin::Hole(hole) = origin else {
            return false;
        };
        let written = self.file.get(hole.start..hole.end).unwrap_or(&[]);
        let is_name = written.first().is_some_and(|first| is_name_byte(*first));
        is_name || written.starts_with(b"@") || (hole.way.is_made() && is_parameter(written))
    }
}

/// Whether a parameter of a macro begins the text.
fn is_parameter(text: &[u8]) -> bool {
    matches!(text, [b'$', b'0'..=b'9' | b'@' | b'*' | b'#', ..])
}
