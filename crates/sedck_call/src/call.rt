//! The script of a call, and its inputs.

ghost use Rattle.std.specs.Prelude.{◌≡◌, map, flat_map, IfOk, IfErr};
ghost use Rattle.sedck_call.specs.declared.call.CallFault.TheVariants.{OutOfMemory};
ghost use Rattle.sedck_call.specs.Calls.{IsCall, IsFault, piece_of, operand_of, is_idle as is_idle_call, pieces_of, inputs_of};

use crate::given::{Given, Origin, given_of};
use crate::option::CallOption;
use std::alloc::{AllocError, Global};

/// A part of a script.
#[derive(Clone, Copy)]
pub enum Piece {
    /// This text.
    Text(Origin),
    /// The file with this path.
    File(Origin),
}

/// A call of sed.
#[derive(Drop)]
pub struct Call {
    /// What the words give, in order.
    pub given: Vec<Given>,
    /// The parts of the script, in order; none where no script runs.
    pub pieces: Vec<Piece>,
    /// The numbers of the words that are inputs, from 0, in order.
    pub inputs: Vec<usize>,
}

/// Why words are no call of sed.
#[derive(Clone, Copy, Drop)]
pub enum CallFault {
    /// No sed takes the word of this number, from 0, or it is an option that lacks its argument.
    BadWord(usize),
    /// There is no script.
    NoScript,
    OutOfMemory,
}

impl From<AllocError> for CallFault {
    ghost from_gives = { λ error fault. fault ≡ OutOfMemory };

    fn from(_: AllocError) -> CallFault {
        CallFault::OutOfMemory
    }
}

/// The call of sed with these words after its name.
pub fn call_of(alloc: Global, words: &[&[u8]]) -> Result<Call, CallFault>
    ensures call { IfOk result (IsCall (map (λ word. word.now) words.now)) }
    ensures fault { IfErr result (IsFault (map (λ word. word.now) words.now)) }
{
    let given = given_of(alloc, words)?;
    let (pieces, inputs) = parts_of(alloc, &given)?;
    if pieces.is_empty() && !is_idle(&given) {
        return Err(CallFault::NoScript);
    }
    Ok(Call {
        given,
        pieces,
        inputs,
    })
}

/// The parts of the script, and the inputs.
fn parts_of(alloc: Global, given: &[Given]) -> Result<(Vec<Piece>, Vec<usize>), AllocError>
    ensures pieces { IfOk result (λ parts. parts.0.items ≡ pieces_of given.now) }
    ensures inputs { IfOk result (λ parts. parts.1.items ≡ inputs_of given.now) }
{
    let mut pieces = given_pieces(alloc, given)?;
    let mut inputs = operands(alloc, given)?;
    if pieces.is_empty() && !inputs.is_empty() {
        let word = inputs.remove(0);
        pieces.push(Piece::Text(Origin { word, from: 0 }))?;
    }
    Ok((pieces, inputs))
}

/// The parts of the script that options give.
fn given_pieces(alloc: Global, given: &[Given]) -> Result<Vec<Piece>, AllocError>
    ensures { IfOk result (λ pieces. pieces.items ≡ flat_map piece_of given.now) }
{
    let mut pieces = Vec::new(alloc);
    for item in given {
        match *item {
            Given::With(CallOption::Expression, origin) => pieces.push(Piece::Text(origin))?,
            Given::With(CallOption::File, origin) => pieces.push(Piece::File(origin))?,
            _ => {}
        }
    }
    Ok(pieces)
}

/// The operands.
fn operands(alloc: Global, given: &[Given]) -> Result<Vec<usize>, AllocError>
    ensures { IfOk result (λ numbers. numbers.items ≡ flat_map operand_of given.now) }
{
    let mut numbers = Vec::new(alloc);
    for item in given {
        if let Given::Operand(number) = *item {
            numbers.push(number)?;
        }
    }
    Ok(numbers)
}

/// Whether no script runs, whatever else is given.
fn is_idle(given: &[Given]) -> bool
    ensures { result ≡ is_idle_call given.now }
{
    for item in given {
        if let Given::Alone(CallOption::Help | CallOption::Version, _) = *item {
            return true;
        }
    }
    false
}
