//! Texts that are no scripts of sed, by how they begin.

use crate::bytes::{
    after_any, begins_with_one, byte_at, first_line, first_name, has, without_blanks,
};
use sedck_report::skipped;

/// What is said of a refused text that looks like something else.
#[derive(Clone, Copy)]
pub struct Foreign {
    pub message: &'static str,
    pub hint: &'static str,
}

const INSIDE: &str =
    "check each sed script inside it by itself: docs/RECIPES.md shows how to pass it to standard input";

/// A text with a byte order mark of 16 bits.
const WIDE: Foreign = Foreign {
    message: "this text is in UTF-16, and not in ASCII or UTF-8",
    hint: "write it in UTF-8, as `iconv -f UTF-16 -t UTF-8` does",
};

const CERTIFICATE: Foreign = Foreign {
    message: "this is a certificate, and no sed script",
    hint: "give the script's name by itself, and that of the certificate after `--cert`",
};

/// Words with which a line of a shell script begins, and no usual line of sed.
static SHELL_WORDS: &'static [&'static str] = &[
    "if ", "for ", "while ", "case ", "set -", "export ", "echo ", "exec ", "cd ", "test ", "[ ",
    "sed ", "cat ", "grep ",
];

/// What the text looks like, if it isn't a script of sed.
pub fn other_kind(text: &[u8]) -> Option<Foreign> {
    if text.starts_with(b"#!") {
        return other_program(text);
    }
    if text.starts_with(b"\xff\xfe") || text.starts_with(b"\xfe\xff") {
        return Some(WIDE);
    }
    if text.starts_with(b"sedck ") {
        return Some(CERTIFICATE);
    }
    let mut first: &[u8] = &[];
    for line in text.split(is_newline) {
        if is_left_out(line) {
            continue;
        }
        if !first.is_empty() {
            return other_lines(first, line);
        }
        first = line;
    }
    other_lines(first, &[])
}

/// By the first line, which names a program.
fn other_program(text: &[u8]) -> Option<Foreign> {
    if names_sed(first_line(text)) {
        return None;
    }
    Some(Foreign {
        message: "the first line names a program other than sed: this isn't a sed script",
        hint: INSIDE,
    })
}

fn is_newline(byte: &u8) -> bool {
    *byte == b'\n'
}

/// By the first two lines that are neither blank nor comments.
fn other_lines(first: &[u8], second: &[u8]) -> Option<Foreign> {
    let message = if is_target(first) && second.starts_with(b"\t") {
        "this looks like a makefile, not a sed script"
    } else if is_assignment(first) || begins_with_one(first, SHELL_WORDS) {
        "this looks like a shell script or a makefile, not a sed script"
    } else {
        return None;
    };
    Some(Foreign {
        message,
        hint: INSIDE,
    })
}

/// Whether a word of the line ends in `sed`. A carriage return may end the line.
fn names_sed(line: &[u8]) -> bool {
    let is_last = line.ends_with(b"sed") || line.ends_with(b"sed\r");
    is_last || has(line, "sed ") || has(line, "sed\t")
}

/// Whether the line is blank or a comment.
fn is_left_out(line: &[u8]) -> bool {
    let text = without_blanks(line);
    text.is_empty() || text.starts_with(b"#")
}

/// Whether the line begins with a name of at least two bytes and a `=`, as `prefix=/usr` and `CC := cc`.
fn is_assignment(line: &[u8]) -> bool {
    let length = name_length(line);
    length > 1 && after_any(skipped(line, length), " :?+").starts_with(b"=")
}

/// Whether the line begins with a name of at least two bytes and a `:`, as `all: sedck`.
fn is_target(line: &[u8]) -> bool {
    let length = name_length(line);
    length > 1 && byte_at(line, length) == b':'
}

/// The length of the name with which the line begins. None begins with a digit, as commands with an address do, such as `1iX=1`.
fn name_length(line: &[u8]) -> usize {
    if byte_at(line, 0).is_ascii_digit() {
        return 0;
    }
    first_name(line).len()
}
