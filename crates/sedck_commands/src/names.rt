//! Names of files, as commands give them.

ghost use Rattle.std.specs.Prelude.{◌≡◌, false, ◌∷◌, length, IfOk, IfErr, MatchOption};
ghost use Rattle.sedck_commands.specs.Cuts.{is_continued};
ghost use Rattle.sedck_commands.specs.Private.Alike.{Name};
ghost use Rattle.sedck_commands.specs.ReadAlike.{begins_control, has_control};
ghost use Rattle.sedck_commands.specs.FirstFaults.{FirstControl, NameFault};
ghost use Rattle.sedck_text.specs.Cursors.{unread};

use crate::fault::ScriptFault;
use sedck_text::{Class, Cursor};

/// What a command does with a file.
#[derive(Clone, Copy, PartialEq, Eq)]
pub enum Access {
    Read,
    Write,
}

/// Whether the line ends in an odd number of backslashes.
pub fn is_continued(line: &[u8]) -> bool
    ensures { result ≡ is_continued line.now }
{
    // Most lines end otherwise, and are long.
    if line.is_empty() || line[line.len() - 1] != b'\\' {
        return false;
    }
    let mut rest = line;
    'bytes: while let [first, second, behind @ ..] = rest {
        rest = if *first == b'\\' { behind } else { &rest[1..] };
    }
    match rest {
        [last, ..] => *last == b'\\',
        [] => false,
    }
}

/// Whether a control character but a tab is there: a byte, or two that are one in UTF-8.
fn begins_control(first: u8, behind: &[u8]) -> bool
    ensures { result ≡ begins_control (first ∷ behind.now) }
{
    match first {
        b'\t' => false,
        0..=31 | 127 => true,
        194 => matches!(behind, [128..=159, ..]),
        _ => false,
    }
}

/// The first control character but a tab, with what is after it.
fn first_control(name: &[u8]) -> Option<&[u8]>
    ensures { MatchOption result (has_control name.now ≡ false) (λ behind. FirstControl name.now behind.now) }
{
    let mut rest = name;
    'bytes: while let [first, behind @ ..] = rest {
        if begins_control(*first, behind) {
            return Some(rest);
        }
        rest = behind;
    }
    None
}

/// The file name after the blanks at the start, and the text from the end of its line on. The opening is that of the verb or the
/// flag.
pub fn read_name<'a>(
    opening: usize,
    text: Cursor<'a>,
) -> Result<(&'a [u8], Cursor<'a>), ScriptFault>
    ensures read { IfOk result (λ x. Name (unread text.entry) x.0.now (unread x.1)) }
    ensures same { IfOk result (λ x. x.1.whole ≡ text.entry.whole) }
    ensures first { IfErr result (λ fault. NameFault (length text.entry.whole.now) opening (unread text.entry) fault) }
{
    let begins = text.skip(Class::Blank);
    let (name, rest) = begins.split(Class::Except(b'\n'));
    if name.is_empty() {
        return Err(ScriptFault::MissingName { place: opening });
    }
    if let Some(control) = first_control(name) {
        return Err(ScriptFault::ExtraText {
            place: rest.offset() - control.len(),
        });
    }
    if !rest.unread().is_empty() && is_continued(name) {
        return Err(ScriptFault::ExtraText {
            place: rest.offset() - 1,
        });
    }
    Ok((name, rest))
}
