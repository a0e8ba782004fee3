//! The script of a call.

use crate::conditions::conditions_of;
use crate::holes::roles_of;
use crate::mending::mended;
use crate::names::Names;
use crate::parts::Runner;
use crate::units::{is_one_in, rest};
use crate::words::{CallWord, LONGEST, STANDARD};
use sedck_call::{Call, CallFault, CallOption, Given, Piece, call_of};
use sedck_found::{FoundScript, Unknown};
use sedck_origin::{Hole, Result, Way, has_hole};
use std::alloc::AllocError;

/// The words of a call, and what is known around them.
#[derive(Clone, Copy)]
pub(crate) struct Around<'a> {
    pub words: &'a [CallWord],
    /// Where the name of the sed is.
    pub name: Hole,
    pub runner: Runner,
    /// The text that is its standard input.
    pub here: Option<&'a CallWord>,
}

/// The script of a call with these words.
pub(crate) fn script_of(names: &Names<'_>, around: Around<'_>) -> Result<FoundScript> {
    let words = around.words.iter();
    let bytes = words.map(|word| word.traced.bytes.as_slice());
    let bytes: Vec<&[u8]> = bytes.collect(names.alloc)?;
    let add = |length: usize, word: &&[u8]| length.saturating_add(word.len());
    if bytes.iter().fold(0, add) > LONGEST {
        return Ok(FoundScript::Unknown(Unknown::Words));
    }
    // What xargs adds may be the script.
    let mut words = around.words.iter();
    let is_open = words.any(|word| has_hole(&word.traced.origins))
        || around.runner == Runner::Adding;
    match call_of(names.alloc, &bytes) {
        Ok(call) => script_in(names, call, around),
        Err(CallFault::OutOfMemory) => Err(AllocError),
        Err(_) if is_open => Ok(FoundScript::Unknown(Unknown::Words)),
        // A bracket of M4 may end a command.
        Err(_) if names.macros.are_read => Ok(FoundScript::Unknown(Unknown::Macro)),
        Err(fault) => Ok(FoundScript::Refused(fault)),
    }
}

/// The script of a call that a sed takes.
fn script_in(names: &Names<'_>, call: Call, around: Around<'_>) -> Result<FoundScript> {
    let is_extended = |item: &Given| matches!(*item, Given::Alone(CallOption::Extended, _));
    if call.given.iter().any(is_extended) {
        return Ok(FoundScript::Foreign(call));
    }
    if let Some(unknown) = unknown_words(&call, around) {
        return Ok(FoundScript::Unknown(unknown));
    }
    let Some((mut text, mut holes)) = roles_of(names.alloc, &call, around)? else {
        return Ok(FoundScript::Unknown(Unknown::Part));
    };
    let Some(others) = conditions_of(names.alloc, &call, around)? else {
        return Ok(FoundScript::Unknown(Unknown::Words));
    };
    if names.macros.change(&text) {
        return Ok(FoundScript::Unknown(Unknown::Macro));
    }
    if names.assumed.mends {
        text = mended(names.alloc, names.file, text, &mut holes)?;
    }
    holes.extend_from_slice(&others)?;
    Ok(FoundScript::Text { call, text, holes })
}

/// Whether the script is an operand without bytes, with `-i` before it: the seds of the BSDs take it for the suffix, and the next word for
/// the script.
fn is_suffix(call: &Call, words: &[CallWord]) -> bool {
    let [Piece::Text(origin)] = *call.pieces.as_slice() else {
        return false;
    };
    let word = words.get(origin.word);
    let is_in_place = |item: &Given| matches!(*item, Given::Alone(CallOption::InPlace, _));
    let is_operand =
        |item: &Given| matches!(*item, Given::Operand(number) if number == origin.word);
    word.is_some_and(|word| word.traced.bytes.is_empty())
        && call.given.iter().any(is_in_place)
        && call.given.iter().any(is_operand)
}

/// Why the script is unknown, if its words say so.
fn unknown_words(call: &Call, around: Around<'_>) -> Option<Unknown> {
    let (Piece::Text(origin) | Piece::File(origin)) = call.pieces.first()?;
    if has_open_word(&call.given, around.words, origin.word) {
        return Some(Unknown::Words);
    }
    let mut pieces = call.pieces.iter();
    let unknown = pieces.find_map(|piece| unknown_piece(*piece, around));
    unknown.or(is_suffix(call, around.words).then_some(Unknown::Suffix))
}

/// Whether a word before the script begins with a hole, so that it may be another option, and isn't what an option takes.
fn has_open_word(given: &[Given], words: &[CallWord], first: usize) -> bool {
    let mut before = words.iter().take(first);
    before.any(|word| word.hole_at(0).is_some_and(|hole| hole.way != Way::Quoted))
        || given.iter().any(|item| match *item {
            Given::Operand(number) if number < first => {
                words.get(number).is_some_and(|word| word.is_hole(0))
            }
            _ => false,
        })
}

/// Why the piece is unknown.
fn unknown_piece(piece: Piece, around: Around<'_>) -> Option<Unknown> {
    let (Piece::Text(origin) | Piece::File(origin)) = piece;
    let word = around.words.get(origin.word)?;
    let is_standard = is_one_in(rest(&word.traced.bytes, origin.from), STANDARD);
    match piece {
        Piece::File(_) => (around.here.is_none() || !is_standard).then_some(Unknown::File),
        Piece::Text(_) if word.is_hole_from(origin.from) => Some(Unknown::Words),
        Piece::Text(_) => word.is_hole(origin.from).then_some(Unknown::Part),
    }
}
