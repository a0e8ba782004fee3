//! Bytes as a terminal may show them.

ghost use Rattle.std.specs.Prelude.{◌≡◌, ◌++◌, ◌<◌, IfOk, OnOk, flat_map, string_bytes};
ghost use Rattle.sedck_report.specs.Shown.{is_printable as is_shown, hexadecimal as digit_of, shown_byte, shown_in_line, shown_in_name};

use std::alloc::{AllocError, Global};

/// The bytes of a line in printable ASCII: a tab is four spaces, and any other byte that isn't printable ASCII is `\x`
/// and two digits.
pub fn shown_line(alloc: Global, bytes: &[u8]) -> Result<String, AllocError>
    ensures { IfOk result (λ shown. string_bytes shown ≡ flat_map shown_in_line bytes.now) }
{
    let mut shown = String::new(alloc);
    for byte in bytes {
        push_in_line(&mut shown, *byte)?;
    }
    Ok(shown)
}

/// Adds a byte of a line.
fn push_in_line(shown: &mut String, byte: u8) -> Result<(), AllocError>
    ensures { OnOk result (string_bytes shown.new ≡ string_bytes shown.old ++ shown_in_line byte) }
{
    match byte {
        b'\t' => shown.push_str("    "),
        byte => push_shown(shown, byte),
    }
}

/// The bytes of a name in printable ASCII, from which they can be read back: a backslash is `\\`, a double quote `\"`, and a
/// backquote or any byte that isn't printable ASCII is `\x` and two digits, so that none of a report's own quotes can be meant.
pub fn shown_name(alloc: Global, bytes: &[u8]) -> Result<String, AllocError>
    ensures { IfOk result (λ shown. string_bytes shown ≡ flat_map shown_in_name bytes.now) }
{
    let mut shown = String::new(alloc);
    for byte in bytes {
        push_in_name(&mut shown, *byte)?;
    }
    Ok(shown)
}

/// Adds a byte of a name.
fn push_in_name(shown: &mut String, byte: u8) -> Result<(), AllocError>
    ensures { OnOk result (string_bytes shown.new ≡ string_bytes shown.old ++ shown_in_name byte) }
{
    match byte {
        b'\\' => shown.push_str("\\\\"),
        b'"' => shown.push_str("\\\""),
        b'`' => shown.push_str("\\x60"),
        byte => push_shown(shown, byte),
    }
}

/// Whether a terminal shows the byte as a character of its own.
pub fn is_printable(byte: u8) -> bool
    ensures { result ≡ is_shown byte }
{
    matches!(byte, b' '..=b'~')
}

/// Adds the byte, or what stands for it.
fn push_shown(shown: &mut String, byte: u8) -> Result<(), AllocError>
    ensures { OnOk result (string_bytes shown.new ≡ string_bytes shown.old ++ shown_byte byte) }
{
    if is_printable(byte) {
        return shown.push(char::from(byte));
    }
    shown.push_str("\\x")?;
    shown.push(hexadecimal(byte / 16))?;
    shown.push(hexadecimal(byte % 16))
}

/// The hexadecimal digit of a number below 16.
fn hexadecimal(digit: u8) -> char
    requires { digit < 16 }
    ensures { result ≡ digit_of digit }
{
    match digit {
        0..=9 => char::from(b'0' + digit),
        _ => char::from(b'a' + (digit - 10)),
    }
}
