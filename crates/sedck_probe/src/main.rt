//! What the tests run beside the programs; it isn't installed.
//!
//! `sedck_probe SCRIPT` holds runs of real seds against the model: it reads what was seen of runs of this script from standard input,
//! and says of each whether it is a run of the model.
//!
//! Words are separated by single spaces; texts are in hexadecimal, the empty one is `-`:
//!
//! - `run NAME` begins a run, and `input TEXT` is a line of its input;
//! - `state PLACE READ PATTERN HOLD` is what was seen before a command, or after the last one (the place of a command is its number,
//!   from 0): how many lines had been read, and the two spaces;
//! - `done` says that the run had ended then; a run without it was cut off.
//!
//! The flag that `t` tests can't be seen, nor what a step does to a file: the run is one of the model's where some choice of these makes
//! it one. Each step is decided by `step`, and the whole run by `follows`. The status is 0 where no step is refused, else 1; it is 2 for
//! a script or a line that can't be read, and 4 where a file can't be read or written, or memory ran out.
//!
//! `sedck_probe --places SCRIPT` says where each command begins in the script and where it ends, in bytes; which ones are labels, and which
//! ones branch to the end of the script. `sedck_probe --parts TEXTS` says of each text between bytes 0 in which part of a script its bytes
//! are, by letters, and where its commands are. `sedck_probe --twice CALL SCRIPT [CERTIFICATE]` makes one call twice, and prints both answers.
#![tactic(auto)]

mod choosing;
mod engines;
mod parts;
mod readers;
mod report;
mod seen;
mod twice;

use parts::show_parts;
use report::Counts;
use sedck_script::{Located, Location, Script, Verb, locate};
use seen::Trace;
use std::io::{BufRead, BufReader};
use std::process::ExitCode;
use std::rt::{Env, Files};
use std::{env, fs, io};
use twice::answer_twice;

fn main(rt: HostRuntime) -> ExitCode {
    let Ok(words) = words(&rt) else {
        let _ = println!(rt; "out of memory");
        return ExitCode::from(4);
    };
    match answer(&rt, &words) {
        Ok(status) => ExitCode::from(status),
        Err(_) => ExitCode::from(4),
    }
}

/// The words after the program's name.
fn words(rt: &(impl Env + AllocGlobal)) -> io::Result<Vec<String>> {
    Ok(env::args(rt)?.skip(1).collect(rt.alloc())?)
}

const USAGE: &str = "usage: sedck_probe SCRIPT < RUNS
       sedck_probe --places SCRIPT
       sedck_probe --parts TEXTS
       sedck_probe --twice CALL SCRIPT [CERTIFICATE]";

/// Does what the words ask for; the exit status.
fn answer(rt: &HostRuntime, words: &[String]) -> io::Result<u8> {
    let [first, rest @ ..] = words else {
        return usage(rt);
    };
    match (first.as_str(), rest) {
        ("--twice", [call, script, certificate @ ..]) => {
            answer_twice(rt, call, script, certificate)
        }
        ("--places", [script]) => answer_script(rt, script, true),
        ("--parts", [texts]) => show_parts(rt, texts),
        (script, []) => answer_script(rt, script, false),
        _ => usage(rt),
    }
}

fn usage(rt: &impl Print) -> io::Result<u8> {
    println!(rt; "{USAGE}")?;
    Ok(2)
}

/// Reads the script, and says where its commands are, or whether the runs that are read are runs of the model.
fn answer_script(rt: &HostRuntime, path: &str, shows_places: bool) -> io::Result<u8> {
    let text = fs::read(rt, path)?;
    match locate(rt.alloc(), &text) {
        Ok(located) if shows_places => show_places(rt, &located),
        Ok(located) => answer_all(rt, &located.script),
        Err(fault) => {
            println!(rt; "{fault}")?;
            Ok(2)
        }
    }
}

/// Says where the commands are.
fn show_places(rt: &HostRuntime, located: &Located) -> io::Result<u8> {
    let commands = located.script.commands();
    for (location, command) in located.locations.iter().zip(commands) {
        show_place(rt, location, word_of(&command.verb, commands.len()))?;
    }
    Ok(0)
}

fn show_place(rt: &impl Print, location: &Location, word: &str) -> io::Result<()> {
    println!(rt; "{} {} {word}", location.start, location.end)
}

/// What is said of the verb, in a script with so many commands.
fn word_of(verb: &Verb, count: usize) -> &'static str {
    match verb {
        Verb::Label(_) => "label",
        Verb::Branch(target) | Verb::Test(target) if *target == count => "leaves",
        _ => "command",
    }
}

/// Reads the runs line by line.
fn answer_all(rt: &HostRuntime, script: &Script) -> io::Result<u8> {
    let mut counts = Counts::default();
    let mut trace = Trace::new(rt.alloc());
    let lines = BufReader::new(rt.alloc(), rt.reader())?.lines(rt.alloc());
    for line in lines {
        if !take_line(rt, script, &mut counts, &mut trace, line?.as_str())? {
            return Ok(2);
        }
    }
    counts.report(rt, script, &trace)?;
    counts.summary(rt)
}

/// Reports the run before, where a run begins, and adds what the line says; false where that can't be read.
fn take_line(
    rt: &HostRuntime,
    script: &Script,
    counts: &mut Counts,
    trace: &mut Trace,
    line: &str,
) -> io::Result<bool> {
    if line.starts_with("run ") {
        counts.report(rt, script, trace)?;
        *trace = Trace::new(rt.alloc());
    }
    let is_read = trace.add(rt.alloc(), line)?;
    if !is_read {
        println!(rt; "not understood: {line}")?;
    }
    Ok(is_read)
}
