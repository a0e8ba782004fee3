//! Where the expressions of a command are in its text, and their bracket lists.

use crate::reading::Reading;
use std::alloc::{AllocError, Global};

/// An expression in the text of a script.
#[derive(Clone, Copy)]
pub struct Expression<'a> {
    /// Where it begins, after its delimiter.
    pub start: usize,
    pub bytes: &'a [u8],
    pub delimiter: u8,
}

/// The expressions of a command's addresses, and that of `s`. The text has the command from `start` on to before `end`.
pub fn expressions_in<'a>(
    alloc: Global,
    text: &'a [u8],
    start: usize,
    end: usize,
) -> Result<Vec<Expression<'a>>, AllocError> {
    let command = text.get(start..end).unwrap_or(&[]);
    let mut expressions = Vec::new(alloc);
    let mut reading = Reading::SCRIPT;
    let mut begin = 0;
    for (index, byte) in command.iter().enumerate() {
        let before = reading;
        reading = before.after(*byte);
        if !before.is_in_expression() {
            begin = index.saturating_add(1);
        } else if !reading.is_in_expression() {
            expressions.push(Expression {
                start: start.saturating_add(begin),
                bytes: command.get(begin..index).unwrap_or(&[]),
                delimiter: before.delimiter,
            })?;
        }
    }
    Ok(expressions)
}

/// The bracket lists of the expression, in order, each from its `[` to its `]`, without the backslashes of escaped delimiters.
pub fn lists_in(alloc: Global, expression: Expression) -> Result<Vec<Vec<u8>>, AllocError> {
    let bytes = without_escapes(alloc, expression)?;
    let mut lists: Vec<Vec<u8>> = Vec::new(alloc);
    let mut reading = Reading::START;
    let mut begin = 0;
    for (index, byte) in bytes.iter().enumerate() {
        let before = reading;
        reading = before.after(*byte);
        if !before.is_in_list() {
            begin = index;
        } else if !reading.is_in_list() {
            let list = bytes.get(begin..=index).unwrap_or(&[]);
            lists.push(Vec::from_slice(alloc, list)?)?;
        }
    }
    Ok(lists)
}

/// The expression's bytes without the backslashes of escaped delimiters: each delimiter in it has one right before it.
fn without_escapes(alloc: Global, expression: Expression) -> Result<Vec<u8>, AllocError> {
    let mut bytes = Vec::new(alloc);
    for (index, byte) in expression.bytes.iter().enumerate() {
        let next = expression.bytes.get(index.saturating_add(1));
        if *byte != b'\\' || next != Some(&expression.delimiter) {
            bytes.push(*byte)?;
        }
    }
    Ok(bytes)
}
