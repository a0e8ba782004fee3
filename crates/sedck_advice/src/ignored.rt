//! Comments in a script that silence warnings and notes, as `# sedck: ignore absolute-name`.

ghost use Rattle.std.specs.Prelude.{◌≡◌, OnOk};
ghost use Rattle.sedck_advice.specs.Added.{AddsOthers};
ghost use Rattle.sedck_advice.specs.Ignored.{is_kept};

use crate::bytes::{is_among, until_any, without_blanks};
use crate::comments::{Comment, comments_in};
use crate::doubts::DOUBTS;
use sedck_report::{Code, Finding, Level, Position, end_behind, positions, shown_name, skipped};
use std::alloc::{AllocError, Global};

/// What stands for a code in such a comment, or a word because of which the comment ignores nothing.
#[derive(Clone, Copy)]
pub struct Word<'a> {
    /// Where it is in the script.
    offset: usize,
    bytes: &'a [u8],
    role: Role,
}

/// What a word is in its comment.
#[derive(Clone, Copy)]
enum Role {
    /// It stands for a code.
    Code,
    /// It stands in place of `ignore`.
    Order,
    /// It is the `ignore` of a comment without a code.
    Alone,
    /// It is a comment in which nothing follows `sedck:`.
    Empty,
    /// It is the first word of a comment after a command.
    AfterCommand,
}

impl Word<'_> {
    /// The code of a warning or a note that it names.
    fn named(self) -> Option<Code> {
        code_among(NAMED, self.bytes).or(code_among(DOUBTS, self.bytes))
    }

    /// The code that it names, if that may be ignored.
    pub fn code(self) -> Option<Code> {
        match self.named() {
            Some(code) if matches!(self.role, Role::Code) && !is_kept(code) => Some(code),
            _ => None,
        }
    }
}

/// Whether findings with this code are reported whatever the comments of the script say.
pub fn is_kept(code: Code) -> bool
    ensures { result ≡ is_kept code }
{
    matches!(
        code,
        Code::OptionsInFirstLine
            | Code::Locale
            | Code::BackslashInList
            | Code::ClassWithoutList
            | Code::RangeInY
            | Code::NamesItself
            | Code::WritesItsInput
            | Code::LabelToTheLineEnd
            | Code::LongLabels
    )
}

/// The code with this name, if it is one of these.
fn code_among(codes: &[Code], name: &[u8]) -> Option<Code> {
    for code in codes {
        if code.name().as_bytes() == name {
            return Some(*code);
        }
    }
    None
}

/// The codes of warnings and notes on what a script is, beside those on names: all but those on what is unknown of it.
static NAMED: &'static [Code] = &[
    Code::OptionsInFirstLine,
    Code::BraceBehindLabel,
    Code::LooksExtended,
    Code::OneLineText,
    Code::SilencingComment,
    Code::Locale,
    Code::BackslashInList,
    Code::ClassWithoutList,
    Code::RangeInY,
    Code::UnknownCode,
    Code::InPlace,
    Code::NoBound,
    Code::NoSpaceBound,
    Code::LabelToTheLineEnd,
    Code::LongLabels,
];

/// The words of all comments that begin with `# sedck:`. Those of an `ignore` on a line of its own stand for codes.
pub fn ignoring_words<'a>(alloc: Global, text: &'a [u8]) -> Result<Vec<Word<'a>>, AllocError> {
    let mut words = Vec::new(alloc);
    for comment in &comments_in(alloc, text)? {
        if let Some(order) = order_in(comment.bytes) {
            add_words(&mut words, *comment, order)?;
        }
    }
    Ok(words)
}

/// What follows `# sedck:` in the comment, from its first word on.
fn order_in(comment: &[u8]) -> Option<&[u8]> {
    let rest = without_blanks(comment.strip_prefix(b"#")?).strip_prefix(b"sedck:")?;
    Some(without_blanks(rest))
}

/// Adds the words of a comment in which this follows `# sedck:`.
fn add_words<'a>(
    words: &mut Vec<Word<'a>>,
    comment: Comment<'a>,
    order: &'a [u8],
) -> Result<(), AllocError> {
    let first = until_any(order, " \t");
    let listed = skipped(order, first.len());
    let before = comment.bytes.len().saturating_sub(order.len());
    let offset = comment.offset.saturating_add(before);
    let word = match role_of(first, listed, comment.is_alone) {
        Role::Code => return add_codes(words, offset.saturating_add(first.len()), listed),
        Role::Empty => Word {
            offset: comment.offset,
            bytes: comment.bytes,
            role: Role::Empty,
        },
        role => Word {
            offset,
            bytes: first,
            role,
        },
    };
    Ok(words.push(word)?)
}

/// What the first word of a comment makes of it, by what follows the word. It is `Code` where codes are listed.
fn role_of(first: &[u8], listed: &[u8], is_alone: bool) -> Role {
    if first.is_empty() {
        Role::Empty
    } else if first != b"ignore".as_slice() {
        Role::Order
    } else if !is_alone {
        Role::AfterCommand
    } else if without_blanks(listed).is_empty() {
        Role::Alone
    } else {
        Role::Code
    }
}

/// Adds the words of a list that begins at this place of the script.
fn add_codes<'a>(
    words: &mut Vec<Word<'a>>,
    start: usize,
    listed: &'a [u8],
) -> Result<(), AllocError> {
    let mut offset = start;
    for bytes in listed.split(ends_code) {
        if !bytes.is_empty() {
            words.push(Word {
                offset,
                bytes,
                role: Role::Code,
            })?;
        }
        offset = offset.saturating_add(bytes.len()).saturating_add(1);
    }
    Ok(())
}

fn ends_code(byte: &u8) -> bool {
    is_among(*byte, " \t,")
}

/// A warning for each of the first words that name no code that may be ignored.
pub(crate) fn unknown_warnings(
    alloc: Global,
    findings: &mut Vec<Finding>,
    text: &[u8],
    words: &[Word],
) -> Result<(), AllocError>
    ensures { OnOk result (AddsOthers findings.old.items findings.new.items) }
{
    let (unknown, offsets) = unknown_words(alloc, words)?;
    let places = positions(alloc, text, &offsets)?;
    for (word, position) in unknown.iter().zip(&places) {
        push_unknown(alloc, findings, text, *word, *position)?;
    }
    Ok(())
}

/// How many words at most are warned of, so that no report is far longer than its script.
const MOST_UNKNOWN: usize = 100;

/// The first words that name no code that may be ignored, and where they are.
fn unknown_words<'a>(
    alloc: Global,
    words: &[Word<'a>],
) -> Result<(Vec<Word<'a>>, Vec<usize>), AllocError> {
    let mut unknown = Vec::new(alloc);
    let mut offsets = Vec::new(alloc);
    for word in words {
        if word.code().is_none() && unknown.len() < MOST_UNKNOWN {
            unknown.push(*word)?;
            offsets.push(word.offset)?;
        }
    }
    Ok((unknown, offsets))
}

/// Adds the warning on this word.
fn push_unknown(
    alloc: Global,
    findings: &mut Vec<Finding>,
    text: &[u8],
    word: Word,
    position: Position,
) -> Result<(), AllocError>
    ensures { OnOk result (AddsOthers findings.old.items findings.new.items) }
{
    let (message, hint) = unknown_words_of(alloc, word)?;
    let mut finding = Finding::new(alloc, Level::Warning, Code::UnknownCode, message);
    finding.position = Some(position);
    finding.end = Some(end_behind(text, position, word.bytes.len()));
    finding.hint = Some(hint);
    findings.push(finding)?;
    Ok(())
}

/// Why the comment ignores nothing by the word, and a hint.
fn unknown_words_of(alloc: Global, word: Word) -> Result<(String, &'static str), AllocError> {
    let (before, behind, hint) = words_around(word);
    let named: &[u8] = match word.role {
        Role::Code | Role::Order => word.bytes,
        _ => &[],
    };
    let name = shown_name(alloc, named)?;
    Ok((format!(in alloc; "{before}{name}{behind}")?, hint))
}

/// What is said before and after the word where it is named, or without it, and a hint.
fn words_around(word: Word) -> (&'static str, &'static str, &'static str) {
    match word.role {
        Role::Code if word.named().is_some() => (
            "no comment can ignore \"",
            "\": whether a yes holds depends on it",
            "take the code out of the comment, and change the script where it is reported",
        ),
        Role::Code => (
            "\"",
            "\" is not the code of a warning or a note: this comment doesn't ignore it",
            "a code is what a report shows in brackets after a message; errors can't be ignored",
        ),
        Role::Order => (
            "\"",
            "\" is unknown here: this comment ignores nothing",
            "`# sedck: ignore CODE` ignores the warnings and notes with that code",
        ),
        Role::Empty => (
            "nothing follows `sedck:`, so this comment ignores nothing",
            "",
            "`# sedck: ignore CODE` ignores the warnings and notes with that code",
        ),
        Role::Alone => (
            "this comment names no code, so it ignores nothing",
            "",
            "write the codes after `ignore`, as `# sedck: ignore absolute-name`",
        ),
        Role::AfterCommand => (
            "this comment follows a command, so it ignores nothing",
            "",
            "put it on a line of its own",
        ),
    }
}
