//! The expressions that a pattern may stand for.

ghost use Rattle.std.specs.Prelude.{◌≡◌, ◌↔◌, ◌++◌, map, flat_map, Contains, IfOk, OnOk};
ghost use Rattle.sedck_bre.specs.Tree.{Tree};
ghost use Rattle.sedck_script.specs.Program.{place_patterns, address_patterns, verb_patterns, pattern_expressions, expressions};
ghost use Rattle.sedck_script.specs.View.{pattern_of, place_of, address_of, verb_of, command_of};
ghost use Rattle.sedck_flow.specs.Patterns.{StandsFor};
ghost use Rattle.sedck_model.specs.Private.Candidates.{trees_in};

use sedck_bre::Bre;
use sedck_script::{Address, Command, Pattern, Place, Script, Verb};
use std::alloc::{AllocError, Global};

/// Adds the pattern's own expression, if it has one.
fn add_pattern<'s>(found: &mut Vec<&'s Bre>, pattern: &'s Pattern) -> Result<(), AllocError>
    ensures { OnOk result (trees_in found.new.items ≡ trees_in found.old.items
        ++ pattern_expressions (pattern_of pattern.now)) }
{
    if let Pattern::Expr(expression) = pattern {
        found.push(expression.body())?;
    }
    Ok(())
}

fn add_place<'s>(found: &mut Vec<&'s Bre>, place: &'s Place) -> Result<(), AllocError>
    ensures { OnOk result (trees_in found.new.items ≡ trees_in found.old.items
        ++ flat_map pattern_expressions (place_patterns (place_of place.now))) }
{
    match place {
        Place::Line(_) => Ok(()),
        Place::Last => Ok(()),
        Place::Context(pattern) => add_pattern(found, pattern),
    }
}

fn add_address<'s>(found: &mut Vec<&'s Bre>, address: &'s Address) -> Result<(), AllocError>
    ensures { OnOk result (trees_in found.new.items ≡ trees_in found.old.items
        ++ flat_map pattern_expressions (address_patterns (address_of address.now))) }
{
    match address {
        Address::None => Ok(()),
        Address::One(place) => add_place(found, place),
        Address::Two(from, to) => {
            add_place(found, from)?;
            add_place(found, to)
        }
    }
}

fn add_verb<'s>(found: &mut Vec<&'s Bre>, verb: &'s Verb) -> Result<(), AllocError>
    ensures { OnOk result (trees_in found.new.items ≡ trees_in found.old.items
        ++ flat_map pattern_expressions (verb_patterns (verb_of verb.now))) }
{
    if let Verb::Substitute(substitution) = verb {
        return add_pattern(found, &substitution.pattern);
    }
    Ok(())
}

/// The expressions of the commands that aren't empty.
fn all_of<'s>(alloc: Global, commands: &'s [Command]) -> Result<Vec<&'s Bre>, AllocError>
    ensures { IfOk result (λ found. trees_in found.items ≡ expressions (map command_of commands.now)) }
{
    let mut found = Vec::new(alloc);
    for command in commands {
        add_address(&mut found, &command.address)?;
        add_verb(&mut found, &command.verb)?;
    }
    Ok(found)
}

/// The expressions that the pattern is read as: its own or, where it is empty, all of the script.
pub(crate) fn candidates<'s>(
    alloc: Global,
    script: &'s Script,
    pattern: &'s Pattern,
) -> Result<Vec<&'s Bre>, AllocError>
    ensures { IfOk result (λ found. (t : Tree)
        → Contains (trees_in found.items) t ↔ StandsFor script.now (pattern_of pattern.now) t) }
{
    match pattern {
        Pattern::Previous => all_of(alloc, script.commands()),
        Pattern::Expr(expression) => {
            let mut found = Vec::new(alloc);
            found.push(expression.body())?;
            Ok(found)
        }
    }
}
