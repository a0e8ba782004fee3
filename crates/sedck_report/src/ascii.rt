//! JSON in printable ASCII.

ghost use Rattle.std.specs.Prelude.{◌≤◌, ◌<◌, IfOk, OnOk};
ghost use Rattle.std.specs.Str.{IsAscii};
ghost use Rattle.sedck_report.specs.Ascii.{IsPrintable, IsPrintableLine, StaysPrintable};

use std::alloc::{AllocError, Global};

/// JSON on a line of its own.
pub fn ascii_line(alloc: Global, text: &str) -> Result<Vec<u8>, AllocError>
    ensures ascii { IfOk result (λ line. IsAscii line.items) }
    ensures line { IfOk result (λ line. IsPrintableLine line.items) }
{
    let mut out = Vec::new(alloc);
    push_ascii(&mut out, text)?;
    out.push(b'\n')?;
    Ok(out)
}

/// Adds JSON with an escape for each character that isn't printable ASCII. Such characters are in strings alone.
pub fn push_ascii(out: &mut Vec<u8>, text: &str) -> Result<(), AllocError>
    requires { IsAscii out.old.items }
    ensures ascii { OnOk result (IsAscii out.new.items) }
    ensures printable { OnOk result (StaysPrintable out.old.items out.new.items) }
{
    for character in text.chars() {
        push_character(out, character)?;
    }
    Ok(())
}

/// Adds a character, or its escape.
fn push_character(out: &mut Vec<u8>, character: char) -> Result<(), AllocError>
    requires { IsAscii out.old.items }
    ensures ascii { OnOk result (IsAscii out.new.items) }
    ensures printable { OnOk result (StaysPrintable out.old.items out.new.items) }
{
    if let Ok(byte) = u8::try_from(u32::from(character)) {
        if byte >= 32 && byte <= 126 {
            return push_printable(out, byte);
        }
    }
    let mut units = [0u16; 2];
    for unit in character.encode_utf16(&mut units) {
        push_unit(out, *unit)?;
    }
    Ok(())
}

/// Adds the escape of a unit of UTF-16.
fn push_unit(out: &mut Vec<u8>, unit: u16) -> Result<(), AllocError>
    requires { IsAscii out.old.items }
    ensures ascii { OnOk result (IsAscii out.new.items) }
    ensures printable { OnOk result (StaysPrintable out.old.items out.new.items) }
{
    push_printable(out, b'\\')?;
    push_printable(out, b'u')?;
    push_printable(out, hexadecimal(unit / 4096))?;
    push_printable(out, hexadecimal(unit / 256 % 16))?;
    push_printable(out, hexadecimal(unit / 16 % 16))?;
    push_printable(out, hexadecimal(unit % 16))?;
    Ok(())
}

/// Adds a byte that is printable.
fn push_printable(out: &mut Vec<u8>, byte: u8) -> Result<(), AllocError>
    requires ascii { IsAscii out.old.items }
    requires printable { IsPrintable byte }
    ensures ascii { OnOk result (IsAscii out.new.items) }
    ensures printable { OnOk result (StaysPrintable out.old.items out.new.items) }
{
    Ok(out.push(byte)?)
}

/// The hexadecimal digit of a number below 16.
fn hexadecimal(digit: u16) -> u8
    ensures low { 32 ≤ result }
    ensures high { result ≤ 126 }
{
    match digit {
        0..=9 => b'0' + digit as u8,
        _ => b'a' + ((digit - 10) % 6) as u8,
    }
}
