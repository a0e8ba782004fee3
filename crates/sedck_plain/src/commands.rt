//! Commands, each with its addresses, its `!` and what its verb takes.

use crate::delimiters::delimiter;
use crate::expressions::Written;
use crate::printed::Printed;
use crate::substitutions::{pattern_text, push_substitution, push_transliteration};
use sedck_script::{Address, Command, Place, Verb};

/// Adds the addresses of the command, and its `!`.
pub(crate) fn push_addresses(written: &mut Written, out: &mut Printed, command: &Command) {
    match &command.address {
        Address::None => {}
        Address::One(place) => push_place(written, out, place),
        Address::Two(from, to) => {
            push_place(written, out, from);
            out.push(b",");
            push_place(written, out, to);
        }
    }
    if command.negated {
        out.push(b"!");
    }
}

fn push_place(written: &mut Written, out: &mut Printed, place: &Place) {
    match place {
        Place::Line(n) => out.push_number(*n),
        Place::Last => out.push(b"$"),
        Place::Context(pattern) => {
            let expression = pattern_text(out.alloc, written, pattern);
            let delimiter = delimiter(&expression.bytes, b"", &[]);
            if delimiter != b'/' {
                out.push(b"\\");
            }
            out.push(&[delimiter]);
            out.push_part(&expression, delimiter);
        }
    }
}

/// Adds what the verb of one of these commands takes, without the newline after it.
pub(crate) fn push_taken(
    written: &mut Written,
    out: &mut Printed,
    commands: &[Command],
    verb: &Verb,
) {
    match verb {
        Verb::Label(name) => out.push(name),
        Verb::Branch(target) | Verb::Test(target) => {
            // The end of the script has no label.
            if let Some(command) = commands.get(*target) {
                if let Verb::Label(name) = &command.verb {
                    out.push(b" ");
                    out.push(name);
                }
            }
        }
        Verb::Append(text) | Verb::Change(text) | Verb::Insert(text) => {
            out.push(b"\\\n");
            out.push(text);
        }
        Verb::Read(name) | Verb::Write(name) => {
            out.push(b" ");
            out.push(name);
        }
        Verb::Substitute(substitution) => push_substitution(written, out, substitution),
        Verb::Transliterate(from, to) => push_transliteration(out, from, to),
        _ => {}
    }
}
