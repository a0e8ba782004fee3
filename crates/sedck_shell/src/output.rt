//! Reads texts one after another, and puts together what was read.

use crate::command::{ShellCommand, ShellText};
use crate::frame::{Frame, Quote};
use crate::reader::{Form, Reader};
use sedck_origin::{Cursor, Result, Text, Unit};
use std::alloc::{AllocError, Global};

/// How often reading goes on at a next line.
const RESTARTS: usize = 8;

/// How many levels of texts within texts are read.
const LEVELS: usize = 6;

/// What is searched for in vain so often isn't searched for again, so that the time stays linear.
pub(crate) const MISSES: usize = 16;

/// The most commands of a text that are kept, so that memory is bounded.
const MOST: usize = 100_000;

/// A text that is read by itself: a command between backquotes, or a here-document.
#[derive(Drop)]
pub(crate) struct Job {
    pub units: Vec<Unit>,
    pub quote: Quote,
    /// The number of the here-document.
    pub body: Option<usize>,
}

/// What was read.
#[derive(Drop)]
pub(crate) struct Output {
    /// The commands, each with the number of the here-document that is its input.
    pub commands: Vec<(ShellCommand, Option<usize>)>,
    /// The here-documents, by their numbers; none for one that wasn't found.
    pub bodies: Vec<Option<Vec<Unit>>>,
    /// What is read next.
    pub jobs: Vec<Job>,
    /// The offsets in the file of what isn't understood.
    pub unread: Vec<usize>,
    /// How often the end of something was looked for in vain.
    pub misses: usize,
    /// How many units were looked at for the ends of expressions.
    pub looked: usize,
    /// Whether there are more commands than are kept, or more units than are looked at.
    pub is_full: bool,
    /// Whether memory was lacking, so that something is lost.
    pub is_lost: bool,
}

/// Adds the item, and answers whether it is lost, as memory is lacking.
pub(crate) fn is_lost<T: Drop>(items: &mut Vec<T>, item: T) -> bool {
    items.push(item).is_err()
}

impl Output {
    /// Notes that what begins at this offset in the file isn't understood.
    pub fn note(&mut self, offset: usize) {
        self.is_lost |= is_lost(&mut self.unread, offset);
    }

    /// Notes that what begins at this offset in the file isn't understood, if it isn't.
    pub fn note_if(&mut self, is_unread: bool, offset: usize) {
        if is_unread {
            self.note(offset);
        }
    }

    /// Notes that what begins at this offset in the file isn't kept, as there is too much.
    pub fn note_full(&mut self, offset: usize) {
        self.note_if(!self.is_full, offset);
        self.is_full = true;
    }

    /// Notes that the end of what begins at this offset was looked for in vain.
    pub fn miss(&mut self, offset: usize) {
        self.misses = self.misses.saturating_add(1);
        self.note(offset);
    }

    /// Keeps a command that begins at this offset, and the number of its here-document.
    pub fn keep(&mut self, command: ShellCommand, here: Option<usize>, start: usize) {
        if self.commands.len() >= MOST {
            self.note_full(start);
        } else {
            self.is_lost |= is_lost(&mut self.commands, (command, here));
        }
    }

    /// Adds a text that is read next.
    pub fn add_job(&mut self, units: Vec<Unit>, quote: Quote, body: Option<usize>) {
        let job = Job { units, quote, body };
        self.is_lost |= is_lost(&mut self.jobs, job);
    }
}

/// The commands of the text, also those in `$(..)`, in backquotes, in parentheses and in functions.
pub fn read_shell(alloc: Global, text: Text, form: Form) -> Result<ShellText> {
    let mut output = Output {
        commands: Vec::new(alloc),
        bodies: Vec::new(alloc),
        jobs: Vec::new(alloc),
        unread: Vec::new(alloc),
        misses: 0,
        looked: 0,
        is_full: false,
        is_lost: false,
    };
    read_text(alloc, Cursor::new(text), form, &mut output);
    for _ in 0..LEVELS {
        let jobs = std::mem::replace(&mut output.jobs, Vec::new(alloc));
        for job in &jobs {
            read_job(alloc, job, form, &mut output);
        }
    }
    finished(alloc, output)
}

/// Reads a text or a here-document.
fn read_job(alloc: Global, job: &Job, form: Form, output: &mut Output) {
    let text = Cursor::Units(&job.units);
    match job.body {
        Some(number) => new_reader(alloc, text, form, job.quote, output).read_body(number),
        None => read_text(alloc, text, form, output),
    }
}

/// Reads a text. Where a quote or an expansion isn't closed, reading goes on at the line after it.
fn read_text(alloc: Global, text: Cursor, form: Form, output: &mut Output) {
    let mut rest = text;
    for _ in 0..RESTARTS {
        match new_reader(alloc, rest, form, Quote::None, output).read_text() {
            Some(next) => rest = next,
            None => break,
        }
    }
}

/// A reader at the beginning of a text, with this quoting.
fn new_reader<'a, 'o>(
    alloc: Global,
    text: Cursor<'a>,
    form: Form,
    quote: Quote,
    output: &'o mut Output,
) -> Reader<'a, 'o> {
    Reader {
        alloc,
        form,
        here: text,
        rest: text,
        top: Frame::new(alloc, quote),
        frames: Vec::new(alloc),
        pending: Vec::new(alloc),
        opened: text,
        mark: (output.commands.len(), output.jobs.len()),
        output,
    }
}

/// The commands with their here-documents. The texts that weren't read are noted.
fn finished(alloc: Global, output: Output) -> Result<ShellText> {
    let mut output = output;
    let jobs = std::mem::replace(&mut output.jobs, Vec::new(alloc));
    for job in &jobs {
        if let Some(unit) = job.units.first() {
            output.note(unit.start());
        }
    }
    let mut commands = Vec::new(alloc);
    for (command, here) in output.commands {
        let mut command = command;
        if let Some(number) = here
            && let Some(body) = output.bodies.get_mut(number)
        {
            command.here = body.take();
        }
        output.is_lost |= is_lost(&mut commands, command);
    }
    if output.is_lost {
        return Err(AllocError);
    }
    Ok(ShellText {
        commands,
        unread: output.unread,
    })
}
