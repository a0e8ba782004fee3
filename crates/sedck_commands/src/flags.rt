//! Flags of `s`.

ghost use Rattle.std.specs.Prelude.{◌≡◌, List, option_copied, IfOk, IfErr, length, Bool, false};
ghost use Rattle.sedck_commands.specs.Program as clean;
ghost use Rattle.sedck_commands.specs.Private.Alike.{Flags};
ghost use Rattle.sedck_text.specs.Cursors.{unread};
ghost use Rattle.sedck_commands.specs.Private.FlagReading.{IsFlag, with_flags};
ghost use Rattle.sedck_commands.specs.FirstFaults.{FlagsFault};

use crate::addresses::read_number;
use crate::bytes::{is_digit, is_ending};
use crate::fault::ScriptFault;
use crate::names::read_name;
use crate::texts::end_of_flags;
use sedck_text::{Class, Cursor};

/// The flags of a substitution but its file.
#[derive(Clone, Copy)]
pub struct Seen {
    pub global: bool,
    pub print: bool,
    pub nth: Option<u32>,
}

/// One flag, or the end of the command.
#[derive(Clone, Copy)]
pub enum Flag<'a> {
    Global,
    Print,
    Nth(u32),
    File(&'a [u8]),
    End,
}

/// The flag at the start, and what follows it.
fn read_flag<'a>(text: Cursor<'a>) -> Result<(Flag<'a>, Cursor<'a>), ScriptFault>
    ensures read { IfOk result (λ x. IsFlag (unread text.entry) x.0 (unread x.1)) }
    ensures same { IfOk result (λ x. x.1.whole ≡ text.entry.whole) }
    ensures first { IfErr result (λ fault. (global print numbered : Bool)
        → FlagsFault (length text.entry.whole.now) global print numbered (unread text.entry) fault) }
{
    let Some((first, behind)) = text.split_first() else {
        return Ok((Flag::End, text));
    };
    let place = text.offset();
    if first == b'g' {
        return Ok((Flag::Global, behind));
    }
    if first == b'p' {
        return Ok((Flag::Print, behind));
    }
    if first == b'w' {
        let (name, rest) = read_name(place, behind)?;
        return Ok((Flag::File(name), rest));
    }
    if is_digit(first) {
        let Some((n, rest)) = read_number(text) else {
            return Err(ScriptFault::BadFlag { place });
        };
        return Ok((Flag::Nth(n), rest));
    }
    if !Class::Blank.has(first) && !is_ending(first) {
        return Err(ScriptFault::BadFlag { place });
    }
    let rest = end_of_flags(text)?;
    Ok((Flag::End, rest))
}

/// The flags with their file, and the rest of the text from the end of the command on. None is there twice.
pub fn read_flags<'a>(text: Cursor<'a>) -> Result<(Seen, Option<&'a [u8]>, Cursor<'a>), ScriptFault>
    ensures read { IfOk result (λ x. (pattern : clean.Pattern) (parts : List clean.Part)
        → Flags pattern parts (unread text.entry) (with_flags pattern parts x.0 (option_copied x.1)) (unread x.2)) }
    ensures same { IfOk result (λ x. x.2.whole ≡ text.entry.whole) }
    ensures first { IfErr result (λ fault. FlagsFault (length text.entry.whole.now) false false false (unread text.entry) fault) }
{
    let mut seen = Seen {
        global: false,
        print: false,
        nth: None,
    };
    let mut rest = text;
    loop {
        let (flag, behind) = read_flag(rest)?;
        let place = rest.offset();
        match flag {
            Flag::End => return Ok((seen, None, behind)),
            Flag::File(name) => return Ok((seen, Some(name), behind)),
            Flag::Global => {
                if seen.global {
                    return Err(ScriptFault::BadFlag { place });
                }
                seen.global = true;
            }
            Flag::Print => {
                if seen.print {
                    return Err(ScriptFault::BadFlag { place });
                }
                seen.print = true;
            }
            Flag::Nth(n) => {
                if seen.nth.is_some() {
                    return Err(ScriptFault::BadFlag { place });
                }
                seen.nth = Some(n);
            }
        }
        rest = behind;
    }
}
