//! What the words of a call give, one after another.

ghost use Rattle.std.specs.Prelude.{◌≡◌, ◌<◌, ◌≤◌, suc, List, length, drop, map, IfOk, IfErr};
ghost use Rattle.sedck_call.specs.Options.{taken_by};
ghost use Rattle.sedck_call.specs.Words.{attached, bare, letters, long, free_word, word_by, name_length, outcome_of, Read};
ghost use Rattle.sedck_call.specs.Origins.{end_of_word};
ghost use Rattle.sedck_call.specs.Private.Readings.{reading_of, answered, IsWordFault};

use crate::call::CallFault;
use crate::option::{CallOption, Taken};
use std::alloc::{AllocError, Global};

/// The end of a word, from one of its bytes on.
#[derive(Clone, Copy)]
pub struct Origin {
    /// The word's number, from 0.
    pub word: usize,
    /// The offset in the word of its first byte.
    pub from: usize,
}

impl Origin {
    /// The bytes from there on to the word's end; none where there is no such word.
    pub fn text<'a>(self, words: &[&'a [u8]]) -> &'a [u8]
        ensures { result.now ≡ end_of_word (map (λ word. word.now) words.now) self }
    {
        match words.get(self.word) {
            Some(word) if self.from <= word.len() => &word[self.from..],
            _ => &[],
        }
    }
}

/// What a word gives.
#[derive(Clone, Copy)]
pub enum Given {
    /// An option alone, in the word of this number.
    Alone(CallOption, usize),
    /// An option with what it takes.
    With(CallOption, Origin),
    /// The word of this number, which is no option.
    Operand(usize),
}

/// What the next word may be.
#[derive(Clone, Copy)]
pub(crate) enum Awaited {
    Any,
    /// What the option takes.
    Argument(CallOption),
    /// An operand, whatever it begins with.
    Operand,
}

/// What all words give.
pub(crate) fn given_of(alloc: Global, words: &[&[u8]]) -> Result<Vec<Given>, CallFault>
    ensures given { IfOk result (λ given. outcome_of (map (λ word. word.now) words.now) ≡ Read given.items) }
    ensures fault { IfErr result (IsWordFault (outcome_of (map (λ word. word.now) words.now))) }
{
    let mut given = Vec::new(alloc);
    let mut awaited = Awaited::Any;
    for (number, word) in words.iter().enumerate() {
        let Some(next) = read_word(&mut given, awaited, number, word)? else {
            return Err(CallFault::BadWord(number));
        };
        awaited = next;
    }
    if let Awaited::Argument(_) = awaited {
        return Err(CallFault::BadWord(words.len().saturating_sub(1)));
    }
    Ok(given)
}

/// Adds what the word of this number gives, and answers what is awaited after it, or none where no sed takes the word.
fn read_word(
    given: &mut Vec<Given>,
    awaited: Awaited,
    number: usize,
    word: &[u8],
) -> Result<Option<Awaited>, AllocError>
    ensures { IfOk result (λ next. word_by (reading_of given.old.items awaited) awaited number word.now ≡ answered given.new.items next) }
{
    match awaited {
        Awaited::Any => read_free_word(given, number, word),
        Awaited::Argument(option) => {
            let origin = Origin {
                word: number,
                from: 0,
            };
            given.push(Given::With(option, origin))?;
            Ok(Some(Awaited::Any))
        }
        Awaited::Operand => {
            given.push(Given::Operand(number))?;
            Ok(Some(Awaited::Operand))
        }
    }
}

/// Reads a word that may be an option or an operand.
fn read_free_word(
    given: &mut Vec<Given>,
    number: usize,
    word: &[u8],
) -> Result<Option<Awaited>, AllocError>
    ensures { IfOk result (λ next. free_word (reading_of given.old.items Awaited.Any) number word.now ≡ answered given.new.items next) }
{
    match word {
        [b'-', b'-', text @ ..] => read_long(given, number, text),
        [b'-', _, ..] => read_letters(given, number, word),
        _ => {
            given.push(Given::Operand(number))?;
            Ok(Some(Awaited::Any))
        }
    }
}

/// Reads the letters after the hyphen of a word.
fn read_letters(
    given: &mut Vec<Given>,
    number: usize,
    word: &[u8],
) -> Result<Option<Awaited>, AllocError>
    ensures { IfOk result (λ next. letters (reading_of given.old.items Awaited.Any) number 1 (drop 1 word.now) ≡ answered given.new.items next) }
{
    let mut from = 1;
    while from < word.len() {
        let Some(option) = CallOption::of_letter(word[from]) else {
            return Ok(None);
        };
        from += 1;
        if from == word.len() {
            return read_bare(given, number, option);
        }
        match option.taken() {
            Taken::Nothing => given.push(Given::Alone(option, number))?,
            Taken::Argument | Taken::Suffix => {
                return read_attached(given, Origin { word: number, from }, option);
            }
        }
    }
    Ok(Some(Awaited::Any))
}

/// Reads the text after the two hyphens of a word.
fn read_long(
    given: &mut Vec<Given>,
    number: usize,
    text: &[u8],
) -> Result<Option<Awaited>, AllocError>
    ensures { IfOk result (λ next. long (reading_of given.old.items Awaited.Any) number text.now ≡ answered given.new.items next) }
{
    if text.is_empty() {
        return Ok(Some(Awaited::Operand));
    }
    let length = name_length(text);
    let Some(option) = CallOption::of_name(&text[..length]) else {
        return Ok(None);
    };
    if length < text.len() {
        let origin = Origin {
            word: number,
            from: length.saturating_add(3),
        };
        return read_attached(given, origin, option);
    }
    read_bare(given, number, option)
}

/// How many bytes precede the first `=`.
fn name_length(text: &[u8]) -> usize
    ensures value { result ≡ name_length text.now }
    ensures within { result ≤ length text.now }
{
    let mut length = 0;
    while length < text.len() && text[length] != b'=' {
        length += 1;
    }
    length
}

/// Adds an option with nothing after it in its word.
fn read_bare(
    given: &mut Vec<Given>,
    number: usize,
    option: CallOption,
) -> Result<Option<Awaited>, AllocError>
    ensures { IfOk result (λ next. bare (reading_of given.old.items Awaited.Any) number option (taken_by option) ≡ answered given.new.items next) }
{
    if option.taken() == Taken::Argument {
        return Ok(Some(Awaited::Argument(option)));
    }
    given.push(Given::Alone(option, number))?;
    Ok(Some(Awaited::Any))
}

/// Adds an option with what is after it in its word, if it takes that.
fn read_attached(
    given: &mut Vec<Given>,
    origin: Origin,
    option: CallOption,
) -> Result<Option<Awaited>, AllocError>
    ensures { IfOk result (λ next. attached (reading_of given.old.items Awaited.Any) origin.word origin.from option
        (taken_by option) ≡ answered given.new.items next) }
{
    if option.taken() == Taken::Nothing {
        return Ok(None);
    }
    given.push(Given::With(option, origin))?;
    Ok(Some(Awaited::Any))
}
