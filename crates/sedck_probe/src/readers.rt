//! Expressions, scripts and certificates that are read.
use sedck_cert::streams::FromWrite;
use sedck_cert::{Cert, read_any, read_cert, read_cert_one, upgrade, write_cert};
use sedck_script::{Command, Location, Pattern, Script, Substitution, Verb};
use std::fmt::Display;
use std::io;

/// Prints the words on a line.
pub fn tell(rt: &impl Print, words: &str) -> io::Result<()> {
    println!(rt; "{words}")
}

/// Prints what is shown as text on a line.
pub fn show<T: Display>(rt: &impl Print, shown: &T) -> io::Result<()> {
    println!(rt; "{shown}")
}

/// How many groups the expression has, and the least length of its texts.
pub fn expression(rt: &(impl Print + AllocGlobal), text: &[u8]) -> io::Result<()> {
    match sedck_bre::parse(rt.alloc(), text) {
        Ok(expression) => {
            let groups = expression.groups();
            let least = expression.least();
            println!(rt; "groups {groups} least {least}")
        }
        Err(fault) => show(rt, &fault),
    }
}

/// How many commands the script has, its substitutions and its names.
pub fn script(rt: &(impl Print + AllocGlobal), text: &[u8]) -> io::Result<()> {
    match sedck_script::parse(rt.alloc(), text) {
        Ok(script) => tell_script(rt, &script),
        Err(fault) => show(rt, &fault),
    }
}

/// The start, the verb and the end of each command of the script.
pub fn locations(rt: &(impl Print + AllocGlobal), text: &[u8]) -> io::Result<()> {
    match sedck_script::locate(rt.alloc(), text) {
        Ok(located) => tell_locations(rt, &located.locations),
        Err(fault) => show(rt, &fault),
    }
}

fn tell_locations(rt: &impl Print, locations: &[Location]) -> io::Result<()> {
    for location in locations {
        let Location { start, verb, end } = location;
        println!(rt; "{start} {verb} {end}")?;
    }
    Ok(())
}

pub fn tell_script(rt: &impl Print, script: &Script) -> io::Result<()> {
    let count = script.commands().len();
    println!(rt; "commands {count}")?;
    tell_substitutions(rt, script.commands())?;
    tell_names(rt, "read", script.reads())?;
    tell_names(rt, "write", script.writes())
}

fn tell_substitutions(rt: &impl Print, commands: &[Command]) -> io::Result<()> {
    for command in commands {
        if let Verb::Substitute(substitution) = &command.verb {
            tell_substitution(rt, substitution)?;
        }
    }
    Ok(())
}

/// How many parts the replacement has, and how many groups and which least length the expression.
fn tell_substitution(rt: &impl Print, substitution: &Substitution) -> io::Result<()> {
    let parts = substitution.parts.len();
    match &substitution.pattern {
        Pattern::Previous => println!(rt; "parts {parts}"),
        Pattern::Expr(expression) => {
            let groups = expression.groups();
            let least = expression.least();
            println!(rt; "parts {parts} groups {groups} least {least}")
        }
    }
}

fn tell_names(rt: &impl Print, word: &str, names: &[&[u8]]) -> io::Result<()> {
    let count = names.len();
    println!(rt; "{word} {count}")?;
    for name in names {
        rt.write_all(name)?;
        tell(rt, "")?;
    }
    Ok(())
}

/// The certificate's text.
pub fn certificate(rt: &(impl Print + AllocGlobal), text: &[u8]) -> io::Result<()> {
    match read_cert(rt.alloc(), text) {
        Ok(cert) => tell_certificate(rt, &cert),
        Err(fault) => show(rt, &fault),
    }
}

/// The text of a certificate of either version.
pub fn either_certificate(rt: &(impl Print + AllocGlobal), text: &[u8]) -> io::Result<()> {
    match read_any(rt.alloc(), text) {
        Ok(cert) => tell_certificate(rt, &cert),
        Err(fault) => show(rt, &fault),
    }
}

/// The text that a certificate of version 1 is upgraded to.
pub fn old_certificate(rt: &(impl Print + AllocGlobal), text: &[u8]) -> io::Result<()> {
    let cert = match read_cert_one(rt.alloc(), text) {
        Ok(cert) => cert,
        Err(fault) => return show(rt, &fault),
    };
    match upgrade(rt.alloc(), &cert) {
        Ok(cert) => tell_certificate(rt, &cert),
        Err(_) => tell(rt, "out of memory"),
    }
}

pub fn tell_certificate(rt: &impl Print, cert: &Cert) -> io::Result<()> {
    match write_cert(cert, &mut FromWrite::new(io::writer(rt))) {
        Ok(()) => Ok(()),
        Err(_) => tell(rt, "cannot write"),
    }
}
