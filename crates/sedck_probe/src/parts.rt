//! What two readers say of the parts of a text: that of `sedck_parts`, which knows just enough of the language and reads every text, and
//! `sedck_script`. `tests/parts.py` compares them.

use sedck_parts::{Place, Reading};
use sedck_script::{Command, Location, Script, Verb, locate};
use std::{fs, io};

/// Says of each text of the file, between bytes 0, where its bytes and its end are; and then what its commands are, or why it has none.
pub fn show_parts(rt: &HostRuntime, path: &str) -> io::Result<u8> {
    let file = fs::read(rt, path)?;
    for text in file.split(|byte| *byte == 0) {
        show_places(rt, text)?;
        match locate(rt.alloc(), text) {
            Ok(located) => show_commands(rt, &located.script, &located.locations)?,
            Err(fault) => println!(rt; "{fault}")?,
        }
    }
    Ok(0)
}

/// A line with a letter for each byte, and for the end.
fn show_places(rt: &(impl Print + AllocGlobal), text: &[u8]) -> io::Result<()> {
    let mut letters = String::new(rt.alloc());
    let mut reading = Reading::SCRIPT;
    for byte in text {
        letters.push_str(letter_of(reading))?;
        reading = reading.after(*byte);
    }
    letters.push_str(letter_of(reading))?;
    println!(rt; "{letters}")
}

/// The letter of the place; a small one, but for commands, where a backslash escapes the next byte.
fn letter_of(reading: Reading) -> &'static str {
    match reading.place {
        Place::Command => "c",
        Place::AddressDelimiter | Place::Delimiter => "d",
        Place::Expression if reading.is_escaped => "e",
        Place::Expression => "E",
        Place::Interval if reading.is_escaped => "i",
        Place::Interval => "I",
        Place::Replacement if reading.is_escaped => "r",
        Place::Replacement => "R",
        Place::FirstString | Place::SecondString if reading.is_escaped => "y",
        Place::FirstString | Place::SecondString => "Y",
        Place::Flags => "F",
        Place::TextBegin | Place::TextBackslash => "B",
        Place::Text if reading.is_escaped => "t",
        Place::Text => "T",
        Place::Line => "N",
        Place::LabelBegin | Place::Label => "J",
        Place::LabelEnd => "K",
        Place::Comment => "C",
        _ => "L",
    }
}

/// A line with where each command begins, where its verb is, where it ends, and how long its text, its name or its label is.
fn show_commands(
    rt: &(impl Print + AllocGlobal),
    script: &Script,
    locations: &[Location],
) -> io::Result<()> {
    let mut line = String::new(rt.alloc());
    for (command, location) in script.commands().iter().zip(locations) {
        let Location { start, verb, end } = location;
        let length = given_length(command, script.commands());
        let shown = format!(in rt.alloc(); " {start},{verb},{end},{length}")?;
        line.push_str(shown.as_str())?;
    }
    println!(rt; "commands{line}")
}

/// How long the text, the name or the label of the command is.
fn given_length(command: &Command, commands: &[Command]) -> usize {
    match &command.verb {
        Verb::Label(name) | Verb::Append(name) | Verb::Change(name) | Verb::Insert(name) =>
            name.len(),
        Verb::Read(name) | Verb::Write(name) => name.len(),
        Verb::Substitute(substitution) => substitution.file.map_or(0, |name| name.len()),
        Verb::Branch(target) | Verb::Test(target) => match commands.get(*target) {
            Some(labelled) => label_length(&labelled.verb),
            None => 0,
        },
        _ => 0,
    }
}

fn label_length(verb: &Verb) -> usize {
    match verb {
        Verb::Label(name) => name.len(),
        _ => 0,
    }
}
