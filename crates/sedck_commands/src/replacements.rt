//! Replacements of `s`: their parts, the groups that they keep of a match, the least length outside of them, and the length of their literal parts.

ghost use Rattle.std.specs.Prelude.{◌≡◌, ◌≤◌, ◌<◌, [], ◌∷◌, length, map, option_map, IsTrue, IfOk, IfErr, IfSome, IfNone, ◌^◌, Some, All};
ghost use Rattle.sedck_commands.specs.Faults.{IsOfText};
ghost use Rattle.sedck_commands.specs.Cuts.{is_delimiter};
ghost use Rattle.sedck_commands.specs.Parts.{EscapedPart, Replacement, greatest_group, IsPart};
ghost use Rattle.sedck_text.specs.Cursors.{unread};
ghost use Rattle.sedck_commands.specs.View.{pattern_of, part_of};
ghost use Rattle.sedck_commands.specs.Private.ReplacementReading.{HasGroupsUpTo, IsNextPart};
ghost use Rattle.sedck_commands.specs.References.{IsOutside};
ghost use Rattle.sedck_commands.specs.Program.{part_length as length_of_part, literal_length as length_of_parts};
ghost use Rattle.sedck_commands.specs.Private.Keeping.{may_keep, kept_with, kept_from};
ghost use Rattle.sedck_commands.specs.Program as clean;
ghost use Rattle.sedck_commands.specs.FirstFaults.{IsPartWithin, ReplacementFault};

use crate::bytes::{is_digit, is_letter};
use crate::delimited::{Piece, read_piece};
use crate::fault::ScriptFault;
use crate::types::{Part, Pattern};
use sedck_text::{Class, Cursor};
use std::alloc::Global;

/// The greatest group that a replacement may name.
pub fn greatest_group(pattern: &Pattern) -> u8
    ensures { result ≡ greatest_group (pattern_of pattern.now) }
{
    match pattern {
        Pattern::Previous => 9,
        Pattern::Expr(expression) => expression.groups(),
    }
}

/// What a backslash and this byte mean, which the slice holds.
fn escaped_part<'a>(b: u8, itself: &'a [u8], greatest: u8) -> Option<Part<'a>>
    requires { itself.now ≡ b ∷ [] }
    ensures read { IfSome result (λ part. EscapedPart b (part_of part) × IsPartWithin greatest (part_of part)) }
    ensures none { IfNone result ((part : clean.Part) → EscapedPart b part → IsPartWithin greatest part → ⊥) }
{
    if b == b'n' {
        return Some(Part::Newline);
    }
    if b == b't' {
        return Some(Part::Tab);
    }
    if is_letter(b) {
        return None;
    }
    if !is_digit(b) {
        return Some(Part::Text(itself));
    }
    if b == b'0' || b - b'0' > greatest {
        return None;
    }
    Some(Part::Group(b - b'0'))
}

/// The first part of a replacement, or none at its end, and what follows it.
fn read_part<'a>(
    opening: usize,
    delimiter: u8,
    greatest: u8,
    text: Cursor<'a>,
) -> Result<(Option<Part<'a>>, Cursor<'a>), ScriptFault>
    requires delimiter { IsTrue (is_delimiter delimiter) }
    ensures read { IfOk result (λ x. IsNextPart delimiter greatest (unread text.entry) (option_map part_of x.0) (unread x.1)) }
    ensures same { IfOk result (λ x. x.1.whole ≡ text.entry.whole) }
    ensures first { IfErr result (λ fault. ReplacementFault (length text.entry.whole.now) opening delimiter greatest (unread text.entry) fault) }
    ensures next { IfOk result (λ x. IfSome x.0 (λ part. (fault : ScriptFault)
        → ReplacementFault (length text.entry.whole.now) opening delimiter greatest (unread x.1) fault
        → ReplacementFault (length text.entry.whole.now) opening delimiter greatest (unread text.entry) fault)) }
{
    let (piece, behind) = read_piece(opening, delimiter, text)?;
    match piece {
        Piece::End => Ok((None, behind)),
        Piece::Byte(b) => {
            if b == b'&' {
                return Ok((Some(Part::Whole), behind));
            }
            let (run, after) = text.split(Class::Plain(delimiter));
            Ok((Some(Part::Text(run)), after))
        }
        Piece::Escaped => Ok((Some(Part::Text(&text.unread()[1..2])), behind)),
        Piece::Pair(b) => {
            let Some(part) = escaped_part(b, &text.unread()[1..2], greatest) else {
                return Err(ScriptFault::BadReplacement {
                    place: text.offset(),
                });
            };
            Ok((Some(part), behind))
        }
    }
}

/// The replacement up to the first delimiter that no backslash escapes, and what follows it.
pub fn read_replacement<'a>(
    alloc: Global,
    opening: usize,
    delimiter: u8,
    greatest: u8,
    text: Cursor<'a>,
) -> Result<(Vec<Part<'a>>, Cursor<'a>), ScriptFault>
    requires delimiter { IsTrue (is_delimiter delimiter) }
    ensures read { IfOk result (λ x. Replacement delimiter (unread text.entry) (map part_of x.0.items) (unread x.1)) }
    ensures same { IfOk result (λ x. x.1.whole ≡ text.entry.whole) }
    ensures groups { IfOk result (λ x. HasGroupsUpTo greatest (map part_of x.0.items)) }
    ensures first { IfErr result (λ fault. IsOfText fault
        → ReplacementFault (length text.entry.whole.now) opening delimiter greatest (unread text.entry) fault) }
{
    let mut parts = Vec::new(alloc);
    let mut rest = text;
    loop {
        let (part, behind) = read_part(opening, delimiter, greatest, rest)?;
        let Some(part) = part else {
            return Ok((parts, behind));
        };
        parts.push(part)?;
        rest = behind;
    }
}

/// Whether a replacement that keeps the groups of the bits may keep this one as well.
fn may_keep(pattern: &Pattern, groups: u16, k: u8) -> bool
    requires { k ≤ 9 }
    ensures { result ≡ may_keep (pattern_of pattern.now) groups k }
{
    match pattern {
        Pattern::Previous => false,
        Pattern::Expr(expression) => expression.other_top_group(groups, k),
    }
}

/// The bits of the groups with those of the part, or none where the replacement doesn't keep groups.
fn kept_with(pattern: &Pattern, groups: u16, part: &Part) -> Option<u16>
    requires { IsPart (part_of part.now) }
    ensures { result ≡ kept_with (pattern_of pattern.now) groups (part_of part.now) }
{
    match part {
        Part::Text(_) => Some(groups),
        Part::Newline => Some(groups),
        Part::Tab => Some(groups),
        Part::Whole => None,
        Part::Group(k) => {
            if !may_keep(pattern, groups, *k) {
                return None;
            }
            Some(groups | (1 << *k))
        }
    }
}

/// The bits of the groups that the parts name, or none where the replacement doesn't keep groups.
fn kept_groups(pattern: &Pattern, parts: &[Part]) -> Option<u16>
    requires { All IsPart (map part_of parts.now) }
    ensures { result ≡ kept_from (pattern_of pattern.now) (Some 0) (map part_of parts.now) }
{
    let mut groups = 0;
    for part in parts {
        groups = kept_with(pattern, groups, part)?;
    }
    Some(groups)
}

/// The least length of a match outside of the groups that the replacement names, where it keeps groups. An empty
/// expression has no group to keep, and the number then says nothing of its matches.
pub(crate) fn outside_of(pattern: &Pattern, parts: &[Part]) -> Option<u32>
    requires { All IsPart (map part_of parts.now) }
    ensures { IsOutside (pattern_of pattern.now) (map part_of parts.now) result }
{
    let groups = kept_groups(pattern, parts)?;
    match pattern {
        Pattern::Previous => Some(0),
        Pattern::Expr(expression) => Some(expression.least_outside(groups)),
    }
}

/// The bytes that a part puts in by itself.
fn part_length(part: &Part) -> usize
    ensures { result ≡ length_of_part (part_of part.now) }
{
    match part {
        Part::Text(bytes) => bytes.len(),
        Part::Newline | Part::Tab => 1,
        Part::Whole | Part::Group(_) => 0,
    }
}

/// The length of the literal parts of a replacement.
pub(crate) fn literal_length(parts: &[Part]) -> usize
    requires { length_of_parts (map part_of parts.now) < 2 ^ 64 }
    ensures { result ≡ length_of_parts (map part_of parts.now) }
{
    let mut length = 0;
    for part in parts {
        length += part_length(part);
    }
    length
}
