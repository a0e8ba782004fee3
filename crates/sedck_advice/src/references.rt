//! References to groups in expressions, and where these begin.

ghost use Rattle.std.specs.Prelude.{◌≡◌, ◌||◌, IfOk, OnOk};
ghost use Rattle.sedck_script.specs.View.{command_of};
ghost use Rattle.sedck_report.specs.Files.{is_there};
ghost use Rattle.sedck_advice.specs.References.{refers, has_references};

use crate::weights::{weight_of_place, weight_of_verb};
use sedck_parts::expressions_in;
use sedck_report::{Position, positions};
use sedck_script::{Address, Command, Located, Location, Place};
use std::alloc::{AllocError, Global};

/// Where each expression begins that has a reference.
pub fn references_in(
    alloc: Global,
    text: &[u8],
    located: &Located,
) -> Result<Vec<Position>, AllocError>
    ensures { IfOk result (λ places. is_there places.items ≡ has_references located.now.script) }
{
    let mut offsets = Vec::new(alloc);
    for (index, command) in located.script.commands().iter().enumerate() {
        let location = located.locations.get(index).copied();
        let starts = starts_of(alloc, text, location)?;
        add_command(&mut offsets, &starts, command)?;
    }
    positions(alloc, text, &offsets)
}

/// Where the command's expressions begin, and its verb.
fn starts_of(
    alloc: Global,
    text: &[u8],
    location: Option<Location>,
) -> Result<Vec<usize>, AllocError> {
    let mut starts = Vec::new(alloc);
    if let Some(location) = location {
        for expression in &expressions_in(alloc, text, location.start, location.end)? {
            starts.push(expression.start)?;
        }
        starts.push(location.verb)?;
    }
    Ok(starts)
}

/// Adds where the command's expressions begin that have a reference.
fn add_command(
    offsets: &mut Vec<usize>,
    starts: &[usize],
    command: &Command,
) -> Result<(), AllocError>
    ensures { OnOk result (is_there offsets.new.items ≡ (is_there offsets.old.items || refers (command_of command.now))) }
{
    let Referring { from, to, verb } = referring_of(command);
    let (second, third) = later_expressions(&command.address);
    add_expression(offsets, from, start_at(starts, 0))?;
    add_expression(offsets, to, start_at(starts, second))?;
    add_expression(offsets, verb, start_at(starts, third))
}

/// Which expressions of a command have a reference.
#[derive(Clone, Copy)]
struct Referring {
    from: bool,
    to: bool,
    verb: bool,
}

fn referring_of(command: &Command) -> Referring
    ensures { ((result.from || result.to) || result.verb) ≡ refers (command_of command.now) }
{
    let verb = weight_of_verb(&command.verb).reference;
    match &command.address {
        Address::None => Referring {
            from: false,
            to: false,
            verb,
        },
        Address::One(place) => Referring {
            from: weight_of_place(place).reference,
            to: false,
            verb,
        },
        Address::Two(from, to) => Referring {
            from: weight_of_place(from).reference,
            to: weight_of_place(to).reference,
            verb,
        },
    }
}

/// How many expressions of the command are before that of its second address, and before that of its verb.
fn later_expressions(address: &Address) -> (usize, usize) {
    match address {
        Address::None => (0, 0),
        Address::One(place) => (0, expressions_of(place)),
        Address::Two(from, to) => {
            let first = expressions_of(from);
            (first, first.saturating_add(expressions_of(to)))
        }
    }
}

fn expressions_of(place: &Place) -> usize {
    match place {
        Place::Context(_) => 1,
        _ => 0,
    }
}

fn start_at(starts: &[usize], index: usize) -> usize {
    starts.get(index).copied().unwrap_or(0)
}

/// Adds where the expression begins if it has a reference.
fn add_expression(offsets: &mut Vec<usize>, refers: bool, start: usize) -> Result<(), AllocError>
    ensures { OnOk result (is_there offsets.new.items ≡ (is_there offsets.old.items || refers)) }
{
    if refers {
        offsets.push(start)?;
    }
    Ok(())
}
