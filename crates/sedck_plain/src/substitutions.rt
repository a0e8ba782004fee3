//! What `s` and `y` take.

use crate::delimiters::delimiter;
use crate::expressions::{Written, push_tree};
use crate::printed::Printed;
use sedck_script::{Part, Pattern, Substitution};
use std::alloc::Global;

/// The text of an expression; none for the empty one.
pub(crate) fn pattern_text(alloc: Global, written: &mut Written, pattern: &Pattern) -> Printed {
    let mut text = Printed::new(alloc);
    if let Pattern::Expr(expression) = pattern {
        push_tree(expression.body(), written, &mut text);
    }
    text
}

/// Adds what `s` takes: delimited parts and flags.
pub(crate) fn push_substitution(
    written: &mut Written,
    out: &mut Printed,
    substitution: &Substitution,
) {
    let expression = pattern_text(out.alloc, written, &substitution.pattern);
    let delimiter = if has_escaped_letter(&substitution.parts) {
        b'x'
    } else {
        // References and escapes are of these bytes.
        delimiter(&expression.bytes, b"&123456789nt", &substitution.parts)
    };
    out.push(&[delimiter]);
    out.push_part(&expression, delimiter);
    push_parts(out, &substitution.parts, delimiter);
    out.push(&[delimiter]);
    push_flags(out, substitution);
}

/// Whether an `x` is a text of its own beside a bare one: it was escaped, so it was the delimiter.
fn has_escaped_letter(parts: &[Part]) -> bool {
    for pair in parts.windows(2) {
        match pair {
            [Part::Text([b'x']), other] if is_bare(other) => return true,
            [other, Part::Text([b'x'])] if is_bare(other) => return true,
            _ => {}
        }
    }
    false
}

/// Whether the part is a text that is written without a backslash before it, beside another text too.
fn is_bare(part: &Part) -> bool {
    match part {
        Part::Text([byte]) => byte.is_ascii_alphanumeric(),
        Part::Text(_) => true,
        _ => false,
    }
}

/// Adds the parts of the replacement.
fn push_parts(out: &mut Printed, parts: &[Part], delimiter: u8) {
    let is_text = |place: usize| matches!(parts.get(place), Some(Part::Text(_)));
    for (place, part) in parts.iter().enumerate() {
        match part {
            Part::Text(text) => {
                let is_beside = is_text(place.wrapping_sub(1)) || is_text(place.wrapping_add(1));
                if is_escaped(text, is_beside, delimiter) {
                    out.push(b"\\");
                }
                out.push(text);
            }
            Part::Newline => out.push(b"\\n"),
            Part::Tab => out.push(b"\\t"),
            Part::Whole => out.push(b"&"),
            Part::Group(k) => {
                out.push(b"\\");
                out.push_number(u32::from(*k));
            }
        }
    }
}

/// Whether a text of the replacement has a backslash before it. Where it is beside another text it has one if it can, so that each is a
/// text of its own.
fn is_escaped(text: &[u8], is_beside: bool, delimiter: u8) -> bool {
    match text {
        [byte] if is_beside && !byte.is_ascii_alphanumeric() => true,
        [byte] => *byte == delimiter || b"&\\\n".contains(byte),
        _ => false,
    }
}

/// Adds the flags: the number, `g`, `p`, and `w` with its name.
fn push_flags(out: &mut Printed, substitution: &Substitution) {
    if let Some(n) = substitution.nth {
        out.push_number(n);
    }
    if substitution.global {
        out.push(b"g");
    }
    if substitution.print {
        out.push(b"p");
    }
    if let Some(name) = substitution.file {
        out.push(b"w ");
        out.push(name);
    }
}

/// Adds what `y` takes: two lists.
pub(crate) fn push_transliteration(out: &mut Printed, from: &[u8], to: &[u8]) {
    let mut first = Printed::new(out.alloc);
    first.push_escaped(from, b"\\");
    let mut second = Printed::new(out.alloc);
    second.push_escaped(to, b"\\");
    let delimiter = delimiter(&first.bytes, &second.bytes, &[]);
    out.push(&[delimiter]);
    out.push_part(&first, delimiter);
    out.push_part(&second, delimiter);
}
