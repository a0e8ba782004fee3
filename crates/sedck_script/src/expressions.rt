//! The least length of a text of any of a script's expressions, whether it has one, and whether the script is quiet.

ghost use Rattle.std.specs.Prelude.{◌≡◌, ◌↔◌, map, flat_map, IsTrue};
ghost use Rattle.sedck_bre.specs.Lengths.{IsLeastSize};
ghost use Rattle.sedck_commands.specs.Program.{place_patterns, address_patterns, verb_patterns, pattern_expressions, expressions};
ghost use Rattle.sedck_script.specs.Shortest.{SomeHasLength};
ghost use Rattle.sedck_script.specs.Spelling.{IsQuiet};
ghost use Rattle.sedck_commands.specs.View.{pattern_of, place_of, address_of, verb_of};
ghost use Rattle.sedck_script.specs.View.{command_of};
ghost use Rattle.sedck_script.specs.Private.ExpressionReading.{has_some, lesser as lesser_of, IsLeastOf};

use crate::script::Command;
use sedck_commands::{Address, Pattern, Place, Verb};
use sedck_text::Class;

/// Where a least length is capped, and what stands for it where there is no expression.
const CAP: u32 = 16_777_215;

/// The lesser of two lengths, where there are such.
fn lesser(one: Option<u32>, other: Option<u32>) -> Option<u32>
    ensures { result ≡ lesser_of one other }
{
    let Some(first) = one else {
        return other;
    };
    match other {
        Some(second) => Some(first.min(second)),
        None => one,
    }
}

fn least_of_pattern(pattern: &Pattern) -> Option<u32>
    ensures { IsLeastOf (pattern_expressions (pattern_of pattern.now)) result }
{
    match pattern {
        Pattern::Previous => None,
        Pattern::Expr(expression) => Some(expression.least()),
    }
}

fn least_of_place(place: &Place) -> Option<u32>
    ensures { IsLeastOf (flat_map pattern_expressions (place_patterns (place_of place.now))) result }
{
    match place {
        Place::Line(_) => None,
        Place::Last => None,
        Place::Context(pattern) => least_of_pattern(pattern),
    }
}

fn least_of_address(address: &Address) -> Option<u32>
    ensures { IsLeastOf (flat_map pattern_expressions (address_patterns (address_of address.now))) result }
{
    match address {
        Address::None => None,
        Address::One(place) => least_of_place(place),
        Address::Two(from, to) => lesser(least_of_place(from), least_of_place(to)),
    }
}

fn least_of_verb(verb: &Verb) -> Option<u32>
    ensures { IsLeastOf (flat_map pattern_expressions (verb_patterns (verb_of verb.now))) result }
{
    if let Verb::Substitute(substitution) = verb {
        return least_of_pattern(&substitution.pattern);
    }
    None
}

/// The least length of a text of the commands' expressions, where they have one: in one pass.
fn least_of(commands: &[Command]) -> Option<u32>
    ensures { IsLeastOf (expressions (map command_of commands.now)) result }
{
    let mut least = None;
    for command in commands {
        let own = lesser(
            least_of_address(&command.address),
            least_of_verb(&command.verb),
        );
        least = lesser(least, own);
    }
    least
}

/// The least length of a text of the commands' expressions, or the cap.
pub(crate) fn shortest_of(commands: &[Command]) -> u32
    ensures { IsLeastSize (SomeHasLength (expressions (map command_of commands.now))) result }
{
    least_of(commands).unwrap_or(CAP)
}

/// Whether one of the commands has an expression that isn't empty.
pub(crate) fn has_expression(commands: &[Command]) -> bool
    ensures { result ≡ has_some (expressions (map command_of commands.now)) }
{
    least_of(commands).is_some()
}

/// Whether the first line says that nothing is printed by itself.
pub fn is_quiet(text: &[u8]) -> bool
    ensures { IsTrue result ↔ IsQuiet text.now }
{
    &text[..Class::Except(b'\n').run_length(text)] == b"#n".as_slice()
}
