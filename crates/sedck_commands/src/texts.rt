//! Texts of `a`, `c` and `i`, comments, and the ends of commands.

ghost use Rattle.std.specs.Prelude.{◌≡◌, ℕ, List, IfSome, IfNone, IfOk, IfErr, length};
ghost use Rattle.sedck_text.specs.Cursors.{unread};
ghost use Rattle.sedck_commands.specs.Parts.{Lines, GivenText, Ends};
ghost use Rattle.sedck_commands.specs.Private.Reading.{EndsFlags};
ghost use Rattle.sedck_commands.specs.Private.CommentReading.{CommentText};
ghost use Rattle.sedck_commands.specs.FirstFaults.{CommentFault, EndFault, EndFlagsFault};

use crate::bytes::is_ending;
use crate::fault::ScriptFault;
use crate::names::is_continued;
use memchr::memchr;
use sedck_text::{Class, Cursor};

/// What follows the lines at the start.
fn behind_lines(text: &[u8]) -> &[u8]
    ensures { (bytes : List ℕ) × Lines text.now bytes result.now }
{
    let mut rest = text;
    while let Some((first, behind)) = rest.split_first() {
        if *first == b'\n' {
            return rest;
        }
        rest = behind;
        if *first == b'\\' {
            if let Some((_, after)) = behind.split_first() {
                rest = after;
            }
        }
    }
    rest
}

/// The lines at the start, up to the first newline that no backslash escapes, and the text from there on.
fn split_lines<'a>(text: Cursor<'a>) -> (&'a [u8], Cursor<'a>)
    ensures lines { Lines (unread text.entry) result.0.now (unread result.1) }
    ensures same { result.1.whole ≡ text.entry.whole }
{
    let bytes = text.unread();
    let count = bytes.len() - behind_lines(bytes).len();
    (&bytes[..count], text.advance(count))
}

/// The text that is given after a verb and its blanks, and what follows its end.
pub fn read_text<'a>(text: Cursor<'a>) -> Option<(&'a [u8], Cursor<'a>)>
    ensures read { IfSome result (λ x. GivenText (unread text.entry) x.0.now (unread x.1)) }
    ensures same { IfSome result (λ x. x.1.whole ≡ text.entry.whole) }
    ensures none { IfNone result ((bytes : List ℕ) (rest : List ℕ) → GivenText (unread text.entry) bytes rest → ⊥) }
{
    let (first, behind) = text.split_first()?;
    if first == b'\n' {
        return None;
    }
    if first != b'\\' {
        return Some(split_lines(text));
    }
    let (next, below) = behind.split_first()?;
    if next == b'\n' {
        return Some(split_lines(below));
    }
    let plain = behind.skip(Class::Blank).first()?;
    if plain == b'\n' || plain == b'\\' {
        return None;
    }
    Some(split_lines(behind))
}

/// What follows a comment, from the end of its line on. A carriage return may only be the last byte of the line.
pub fn read_comment<'a>(text: Cursor<'a>) -> Result<Cursor<'a>, ScriptFault>
    ensures read { IfOk result (λ rest. (line : List ℕ) × CommentText (unread text.entry) line (unread rest)) }
    ensures same { IfOk result (λ x. x.whole ≡ text.entry.whole) }
    ensures first { IfErr result (λ fault. CommentFault (length text.entry.whole.now) (unread text.entry) fault) }
{
    let (line, rest) = text.split(Class::Except(b'\n'));
    if let Some(at) = memchr(b'\r', line) {
        if at + 1 < line.len() {
            return Err(ScriptFault::ExtraText {
                place: text.offset() + at,
            });
        }
    }
    Ok(rest)
}

/// The rest of the text from the end of a command on.
pub fn end_of_command<'a>(text: Cursor<'a>) -> Result<Cursor<'a>, ScriptFault>
    ensures read { IfOk result (λ rest. Ends (unread text.entry) (unread rest)) }
    ensures same { IfOk result (λ x. x.whole ≡ text.entry.whole) }
    ensures first { IfErr result (λ fault. EndFault (length text.entry.whole.now) (unread text.entry) fault) }
{
    let rest = text.skip(Class::Blank);
    if let Some(first) = rest.first() {
        if !is_ending(first) {
            return Err(ScriptFault::ExtraText {
                place: rest.offset(),
            });
        }
    }
    Ok(rest)
}

/// The rest of the text from the end of a substitution on, after its flags.
pub fn end_of_flags<'a>(text: Cursor<'a>) -> Result<Cursor<'a>, ScriptFault>
    ensures read { IfOk result (λ rest. EndsFlags (unread text.entry) (unread rest)) }
    ensures same { IfOk result (λ x. x.whole ≡ text.entry.whole) }
    ensures first { IfErr result (λ fault. EndFlagsFault (length text.entry.whole.now) (unread text.entry) fault) }
{
    let rest = end_of_command(text)?;
    let Some(b'#') = rest.first() else {
        return Ok(rest);
    };
    let (line, behind) = rest.split(Class::Except(b'\n'));
    if !behind.unread().is_empty() && is_continued(line) {
        return Err(ScriptFault::ExtraText {
            place: behind.offset() - 1,
        });
    }
    Ok(rest)
}
