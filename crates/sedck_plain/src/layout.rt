//! Scripts: a command on each line, what is in a block further to the right, and perhaps the comments.

use crate::commands::{push_addresses, push_taken};
use crate::dollars::bare_dollars;
use crate::expressions::Written;
use crate::printed::Printed;
use sedck_script::{Command, Located, Location, Verb};
use std::alloc::{AllocError, Global};

/// Whether a script is printed with its comments.
#[derive(Clone, Copy, PartialEq, Eq)]
pub enum Comments {
    /// Each is on a line of its own, before the command or the `}` that it stands before or behind. An empty line between two commands
    /// or comments stays.
    Kept,
    LeftOut,
}

/// What is printed of a script so far.
#[derive(Drop)]
struct Page<'a> {
    /// The text of the script.
    text: &'a [u8],
    comments: Comments,
    out: Printed,
    /// How many blocks are open.
    depth: usize,
    /// How many newlines the text has behind what was printed last.
    newlines: usize,
}

/// The script of this text, whose commands have these bracket lists, as it is to be checked, and where each command is.
pub(crate) fn laid_out(
    alloc: Global,
    text: &[u8],
    located: &Located,
    lists: &[Vec<u8>],
    comments: Comments,
) -> Result<(Vec<u8>, Vec<Location>), AllocError> {
    let mut page = Page {
        text,
        comments,
        out: Printed::new(alloc),
        depth: 0,
        newlines: 0,
    };
    let commands = located.script.commands();
    let mut locations = Vec::new(alloc);
    let mut begin = 0usize;
    if located.script.quiet() {
        page.out.push(b"#n\n");
        begin = 2;
    }
    for ((command, location), own) in commands.iter().zip(&located.locations).zip(lists) {
        page.add_between(begin, location.start);
        begin = page.add_comment_behind(location.end);
        let letter = text.get(location.verb).copied().unwrap_or(b'#');
        let dollars = bare_dollars(alloc, text, *location)?;
        let written = Written {
            lists: own.iter(),
            dollars: dollars.iter(),
        };
        locations.push(page.add_command(commands, command, letter, written))?;
    }
    page.add_between(begin, text.len());
    Ok((page.out.finish()?, locations))
}

impl<'a> Page<'a> {
    /// Adds what the script has between two commands, before the first one or behind the last one: the ends of blocks, and comments.
    fn add_between(&mut self, begin: usize, end: usize) {
        let mut next = begin;
        for place in begin..end {
            if place < next {
                continue;
            }
            match self.text.get(place) {
                Some(b'\n') => self.newlines = self.newlines.saturating_add(1),
                Some(b'#') => next = self.add_comment_behind(place),
                Some(b'}') => {
                    self.newlines = 0;
                    next = self.add_comment_behind(place.saturating_add(1));
                    self.depth = self.depth.saturating_sub(1);
                    self.begin_line();
                    self.out.push(b"}\n");
                }
                _ => {}
            }
        }
    }

    /// Adds the comment on the line on which a command or a `}` ends at this offset of the text, on a line of its own. Answers where the
    /// text goes on.
    fn add_comment_behind(&mut self, end: usize) -> usize {
        let behind = self.text.get(end..).unwrap_or(&[]);
        let line = behind.split(|byte| *byte == b'\n').next().unwrap_or(behind);
        let between = line
            .iter()
            .take_while(|byte| b" \t;".contains(byte))
            .count();
        let Some([b'#', comment @ ..]) = line.get(between..) else {
            return end;
        };
        if self.comments == Comments::Kept {
            // To GNU sed and ssed a text that begins with `#n` is quiet, and a file that begins with `#!` is run by the program, and with
            // the options, that it names. No comment comes to say so only here.
            let comes_first = self.out.bytes.is_empty() && !self.text.starts_with(b"#");
            self.begin_line();
            self.out.push(b"#");
            if comes_first && matches!(comment, [b'n' | b'!', ..]) {
                self.out.push(b" ");
            }
            self.out.push(comment);
            self.out.push(b"\n");
        }
        end.saturating_add(line.len())
    }

    /// Adds one of the commands, whose verb has this letter and whose expressions have this. Answers where it is.
    fn add_command(
        &mut self,
        commands: &[Command],
        command: &Command,
        letter: u8,
        written: Written,
    ) -> Location {
        self.begin_line();
        let mut written = written;
        let start = self.out.bytes.len();
        push_addresses(&mut written, &mut self.out, command);
        let verb = self.out.bytes.len();
        self.out.push(&[letter]);
        push_taken(&mut written, &mut self.out, commands, &command.verb);
        let end = self.out.bytes.len();
        let backslashes = self
            .out
            .bytes
            .iter()
            .rev()
            .take_while(|byte| **byte == b'\\');
        // After an odd number of them, which is only at the end of a script, a newline would go on with the text or name.
        if backslashes.count() % 2 == 0 {
            self.out.push(b"\n");
        }
        if let Verb::Block(_) = command.verb {
            self.depth = self.depth.saturating_add(1);
        }
        Location { start, verb, end }
    }

    /// Begins a line: as far to the right as blocks are open, and after an empty one where the comments are kept and the script has one.
    fn begin_line(&mut self) {
        if self.newlines > 1 && self.comments == Comments::Kept && !self.out.bytes.is_empty() {
            self.out.push(b"\n");
        }
        self.newlines = 0;
        for _ in 0..self.depth {
            self.out.push(b"  ");
        }
    }
}
