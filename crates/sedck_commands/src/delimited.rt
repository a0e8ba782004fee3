//! Parts between delimiters, and bracket lists in them.

ghost use Rattle.std.specs.Prelude.{◌≡◌, ◌<◌, ◌-◌, ◌∷◌, ℕ, List, IsTrue, IfOk, IfErr, ◌⊎◌, ◌==◌, not, [], IfSome, IfNone, length};
ghost use Rattle.std.specs.Cow.{cow_slice_items};
ghost use Rattle.sedck_text.specs.Bytes.{ascii};
ghost use Rattle.sedck_commands.specs.Cuts.{is_delimiter, Longest};
ghost use Rattle.sedck_commands.specs.Parts.{DelimitedExpression, ExpressionText, DelimitedList, FirstList};
ghost use Rattle.sedck_commands.specs.Private.Alike.{IsExpression};
ghost use Rattle.sedck_commands.specs.ReadAlike.{begins_firmly, has_loose_quote, is_misread};
ghost use Rattle.sedck_commands.specs.Faults.{IsNoExpression, IsMisjudged, IsOfText};
ghost use Rattle.sedck_text.specs.Cursors.{unread};
ghost use Rattle.sedck_commands.specs.View.{pattern_of};
ghost use Rattle.sedck_commands.specs.Private.PieceReading.{IsPiece, PatternText, IsWrittenUpTo, IsFirstEscape, list_escape};
ghost use Rattle.sedck_commands.specs.declared.delimited.Piece.{Piece};
ghost use Rattle.sedck_commands.specs.BracketLists.{BracketBegins, BracketList, BracketsClose};
ghost use Rattle.sedck_bre.specs.Faults as expressions;
ghost use Rattle.sedck_commands.specs.FirstFaults.{PieceFault, CutFault, ExpressionTextFault, PatternFault, ListFault, FirstListFault};

use crate::bytes::{can_be_escaped, is_digit, is_letter};
use crate::fault::ScriptFault;
use crate::types::Pattern;
use sedck_bre::{Expr, ReFault, parse};
use sedck_expressions::misjudged;
use sedck_text::{Class, Cursor};
use std::alloc::Global;
use std::borrow::CowSlice;

/// What a delimited part begins with.
#[derive(Clone, Copy)]
pub enum Piece {
    /// The delimiter.
    End,
    /// A byte that is no delimiter, backslash or newline.
    Byte(u8),
    /// A backslash and the delimiter.
    Escaped,
    /// A backslash and another byte.
    Pair(u8),
}

/// The first piece of a delimited part, and what follows it. A part without an end is reported at its opening.
pub fn read_piece<'a>(
    opening: usize,
    delimiter: u8,
    text: Cursor<'a>,
) -> Result<(Piece, Cursor<'a>), ScriptFault>
    requires delimiter { IsTrue (is_delimiter delimiter) }
    ensures read { IfOk result (λ x. IsPiece delimiter (unread text.entry) x.0 (unread x.1)) }
    ensures same { IfOk result (λ x. x.1.whole ≡ text.entry.whole) }
    ensures first { IfErr result (λ fault. PieceFault (length text.entry.whole.now) opening delimiter (unread text.entry) fault) }
{
    let unterminated = ScriptFault::Unterminated { place: opening };
    let Some((first, behind)) = text.split_first() else {
        return Err(unterminated);
    };
    if first == delimiter {
        return Ok((Piece::End, behind));
    }
    if first == b'\n' {
        return Err(unterminated);
    }
    if first != b'\\' {
        return Ok((Piece::Byte(first), behind));
    }
    let Some((next, after)) = behind.split_first() else {
        return Err(unterminated);
    };
    if next != delimiter {
        return Ok((Piece::Pair(next), after));
    }
    if !can_be_escaped(delimiter) {
        return Err(ScriptFault::EscapedDelimiter {
            place: text.offset(),
        });
    }
    Ok((Piece::Escaped, after))
}

/// What a backslash and this byte mean in a list of `y`.
fn list_escape(b: u8) -> Option<u8>
    ensures { result ≡ list_escape b }
{
    match b {
        b'\\' => Some(b'\\'),
        b'n' => Some(b'\n'),
        _ => None,
    }
}

/// The expression up to the first delimiter that no backslash escapes, with the escaped delimiters replaced, the offset of the
/// first of these, and what follows the expression. Only where there is one the bytes are copied.
fn read_expression<'a>(
    alloc: Global,
    opening: usize,
    delimiter: u8,
    text: Cursor<'a>,
) -> Result<(CowSlice<'a, u8>, Option<usize>, Cursor<'a>), ScriptFault>
    requires delimiter { IsTrue (is_delimiter delimiter) }
    ensures read { IfOk result (λ x. DelimitedExpression delimiter (unread text.entry) (cow_slice_items x.0) (unread x.2)) }
    ensures same { IfOk result (λ x. x.2.whole ≡ text.entry.whole) }
    ensures escape { IfOk result (λ x.
        IsFirstEscape delimiter text.entry.whole.now (unread text.entry) (cow_slice_items x.0) (delimiter ∷ (unread x.2)) x.1) }
    ensures first { IfErr result (λ fault. IsOfText fault → CutFault (length text.entry.whole.now) opening delimiter (unread text.entry) fault) }
{
    let mut rest = text;
    'pieces: loop {
        let (piece, behind) = read_piece(opening, delimiter, rest)?;
        match piece {
            Piece::End => {
                let written = &text.unread()[..rest.offset() - text.offset()];
                return Ok((CowSlice::Borrowed(written), None, behind));
            }
            Piece::Escaped => return read_replaced(alloc, opening, delimiter, text, rest),
            Piece::Byte(_) => {}
            Piece::Pair(b) => {
                if b == b'\n' {
                    return Err(ScriptFault::Unterminated { place: opening });
                }
            }
        }
        rest = behind;
    }
}

/// The same where the bytes up to the second cursor have been read as they are written.
fn read_replaced<'a>(
    alloc: Global,
    opening: usize,
    delimiter: u8,
    text: Cursor<'a>,
    behind_written: Cursor<'a>,
) -> Result<(CowSlice<'a, u8>, Option<usize>, Cursor<'a>), ScriptFault>
    requires delimiter { IsTrue (is_delimiter delimiter) }
    requires written { IsWrittenUpTo delimiter text behind_written }
    ensures read { IfOk result (λ x. DelimitedExpression delimiter (unread text.entry) (cow_slice_items x.0) (unread x.2)) }
    ensures same { IfOk result (λ x. x.2.whole ≡ text.entry.whole) }
    ensures escape { IfOk result (λ x.
        IsFirstEscape delimiter text.entry.whole.now (unread text.entry) (cow_slice_items x.0) (delimiter ∷ (unread x.2)) x.1) }
    ensures first { IfErr result (λ fault. IsOfText fault → CutFault (length text.entry.whole.now) opening delimiter (unread text.entry) fault) }
{
    let written = &text.unread()[..behind_written.offset() - text.offset()];
    let mut bytes = Vec::from_slice(alloc, written)?;
    let mut escape = None;
    let mut rest = behind_written;
    loop {
        let (piece, behind) = read_piece(opening, delimiter, rest)?;
        match piece {
            Piece::End => return Ok((CowSlice::Owned(bytes), escape, behind)),
            Piece::Byte(b) => bytes.push(b)?,
            Piece::Escaped => {
                escape = escape.or(Some(rest.offset()));
                bytes.push(delimiter)?;
            }
            Piece::Pair(b) => {
                if b == b'\n' {
                    return Err(ScriptFault::Unterminated { place: opening });
                }
                bytes.push(b'\\')?;
                bytes.push(b)?;
            }
        }
        rest = behind;
    }
}

/// Whether a quote is in the text, and what is right after it may be left out.
fn has_loose_quote(text: &[u8]) -> bool
    ensures { result ≡ has_loose_quote text.now }
{
    let mut rest = text;
    'quotes: while let [first, behind @ ..] = rest {
        if *first == b'\'' && !begins_firmly(behind) {
            return true;
        }
        rest = behind;
    }
    false
}

/// Whether the text begins with a byte that a match must have.
fn begins_firmly(text: &[u8]) -> bool
    ensures { result ≡ begins_firmly text.now }
{
    match text {
        [] => false,
        [b] => is_letter(*b) || is_digit(*b),
        [b, next, ..] => (is_letter(*b) || is_digit(*b)) && !matches!(*next, b'*' | b'\\'),
    }
}

/// Whether some sed reads an escaped delimiter of the expression otherwise.
fn is_misread(delimiter: u8, expression: &[u8]) -> bool
    ensures { result ≡ is_misread delimiter expression.now }
{
    match delimiter {
        b'x' => expression.contains(&b'['),
        b':' | b'=' => expression.contains(&b'[') && expression.contains(&b'\\'),
        b'\'' => has_loose_quote(expression),
        _ => false,
    }
}

/// The expression up to the first delimiter that no backslash escapes, and what follows it. Where some sed reads an escaped
/// delimiter otherwise, none is read.
fn read_expression_text<'a>(
    alloc: Global,
    opening: usize,
    delimiter: u8,
    text: Cursor<'a>,
) -> Result<(CowSlice<'a, u8>, Cursor<'a>), ScriptFault>
    requires delimiter { IsTrue (is_delimiter delimiter) }
    ensures read { IfOk result (λ x. ExpressionText delimiter (unread text.entry) (cow_slice_items x.0) (unread x.1)) }
    ensures same { IfOk result (λ x. x.1.whole ≡ text.entry.whole) }
    ensures first { IfErr result (λ fault. IsOfText fault → ExpressionTextFault (length text.entry.whole.now) opening delimiter (unread text.entry) fault) }
{
    let (bytes, escape, rest) = read_expression(alloc, opening, delimiter, text)?;
    if let Some(place) = escape {
        if is_misread(delimiter, bytes.as_slice()) {
            return Err(ScriptFault::EscapedDelimiter { place });
        }
    }
    Ok((bytes, rest))
}

/// The fault of an expression that begins at the offset.
fn expression_fault(place: usize, fault: ReFault) -> ScriptFault
    ensures memory { IsOfText result → expressions.IsOfText fault }
    ensures cause { IsOfText result → result ≡ ScriptFault.BadExpression place fault }
{
    match fault {
        ReFault::OutOfMemory => ScriptFault::OutOfMemory,
        fault => ScriptFault::BadExpression { place, fault },
    }
}

/// The expression that the text spells, where matchers of real seds don't get it wrong.
fn read_judged(alloc: Global, text: &[u8]) -> Result<Expr, ReFault>
    ensures read { IfOk result (λ e. IsExpression text.now e) }
    ensures refused { IfErr result (λ fault. expressions.IsOfText fault → IsNoExpression text.now fault ⊎ IsMisjudged text.now fault) }
{
    let expression = parse(alloc, text)?;
    match misjudged(text, expression.body()) {
        None => Ok(expression),
        Some(fault) => Err(fault),
    }
}

/// The pattern up to the first delimiter that no backslash escapes, and what follows it.
pub fn read_pattern<'a>(
    alloc: Global,
    opening: usize,
    delimiter: u8,
    text: Cursor<'a>,
) -> Result<(Pattern, Cursor<'a>), ScriptFault>
    requires delimiter { IsTrue (is_delimiter delimiter) }
    ensures read { IfOk result (λ x. PatternText delimiter (unread text.entry) (pattern_of x.0) (unread x.1)) }
    ensures same { IfOk result (λ x. x.1.whole ≡ text.entry.whole) }
    ensures first { IfErr result (λ fault. IsOfText fault → PatternFault (length text.entry.whole.now) opening delimiter (unread text.entry) fault) }
{
    let (bytes, rest) = read_expression_text(alloc, opening, delimiter, text)?;
    let bytes = bytes.as_slice();
    if bytes.is_empty() {
        return Ok((Pattern::Previous, rest));
    }
    match read_judged(alloc, bytes) {
        Ok(expression) => Ok((Pattern::Expr(expression), rest)),
        Err(fault) => Err(expression_fault(text.offset(), fault)),
    }
}

/// One list of a `y` command, and what follows it.
pub fn read_list<'a>(
    alloc: Global,
    opening: usize,
    delimiter: u8,
    text: Cursor<'a>,
) -> Result<(Vec<u8>, Cursor<'a>), ScriptFault>
    requires delimiter { IsTrue (is_delimiter delimiter) }
    ensures read { IfOk result (λ x. DelimitedList delimiter (unread text.entry) x.0.items (unread x.1)) }
    ensures same { IfOk result (λ x. x.1.whole ≡ text.entry.whole) }
    ensures first { IfErr result (λ fault. IsOfText fault → ListFault (length text.entry.whole.now) opening delimiter (unread text.entry) fault) }
{
    let mut bytes = Vec::new(alloc);
    let mut rest = text;
    loop {
        let (piece, behind) = read_piece(opening, delimiter, rest)?;
        match piece {
            Piece::End => return Ok((bytes, behind)),
            Piece::Byte(b) => bytes.push(b)?,
            Piece::Escaped => bytes.push(delimiter)?,
            Piece::Pair(b) => {
                if b == b'\n' {
                    return Err(ScriptFault::Unterminated { place: opening });
                }
                let Some(meant) = list_escape(b) else {
                    return Err(ScriptFault::BadTransliteration {
                        place: rest.offset(),
                    });
                };
                bytes.push(meant)?;
            }
        }
        rest = behind;
    }
}

/// The first list of a `y` command, in which no bracket list is left open, and what follows it.
pub fn read_first_list<'a>(
    alloc: Global,
    opening: usize,
    delimiter: u8,
    text: Cursor<'a>,
) -> Result<(Vec<u8>, Cursor<'a>), ScriptFault>
    requires delimiter { IsTrue (is_delimiter delimiter) }
    ensures read { IfOk result (λ x. FirstList delimiter (unread text.entry) x.0.items (unread x.1)) }
    ensures same { IfOk result (λ x. x.1.whole ≡ text.entry.whole) }
    ensures first { IfErr result (λ fault. IsOfText fault → FirstListFault (length text.entry.whole.now) opening delimiter (unread text.entry) fault) }
{
    let (bytes, rest) = read_list(alloc, opening, delimiter, text)?;
    let written = &text.unread()[..rest.offset() - text.offset() - 1];
    if let Some(more) = open_bracket(written) {
        return Err(ScriptFault::BadTransliteration {
            place: rest.offset() - more.len() - 2,
        });
    }
    Ok((bytes, rest))
}

/// What follows the bytes with which a bracket list begins.
fn bracket_begins(text: &[u8]) -> Option<&[u8]>
    ensures some { IfSome result (λ begins. BracketBegins text.now begins.now) }
    ensures none { IfNone result ((begins : List ℕ) → BracketBegins text.now begins → ⊥) }
{
    let (first, behind) = text.split_first()?;
    if *first == b'^' {
        let (_, begins) = behind.split_first()?;
        return Some(begins);
    }
    Some(behind)
}

/// The bytes before the first `]`, and the text from there on.
fn split_bracket(text: &[u8]) -> (&[u8], &[u8])
    ensures { Longest (λ b. not (b == ascii "]")) text.now result.0.now result.1.now }
{
    text.split_at(Class::Except(b']').run_length(text))
}

/// What follows a bracket list after its `[`, where it is closed.
fn behind_bracket_list(text: &[u8]) -> Option<&[u8]>
    ensures some { IfSome result (λ behind. BracketList text.now behind.now) }
    ensures none { IfNone result ((behind : List ℕ) → BracketList text.now behind → ⊥) }
{
    let begins = bracket_begins(text)?;
    let (_, closing) = split_bracket(begins);
    let (_, behind) = closing.split_first()?;
    Some(behind)
}

/// What follows the `[` of the bracket list that is left open in the text, if one is.
pub fn open_bracket(text: &[u8]) -> Option<&[u8]>
    ensures none { IfNone result (BracketsClose text.now []) }
    ensures closed { IfSome result (λ more. BracketsClose text.now (ascii "[" ∷ more.now)) }
    ensures unclosed { IfSome result (λ more. (behind : List ℕ) → BracketList more.now behind → ⊥) }
{
    let mut rest = text;
    while let Some((first, behind)) = rest.split_first() {
        rest = behind;
        if *first == b'[' {
            let Some(after) = behind_bracket_list(behind) else {
                return Some(behind);
            };
            rest = after;
        } else if *first == b'\\' {
            if let Some((_, after)) = behind.split_first() {
                rest = after;
            }
        }
    }
    None
}
