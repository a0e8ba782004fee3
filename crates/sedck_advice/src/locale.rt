//! The warning `locale`, of each command that says something else by characters than by bytes: so exactly of the scripts that aren't byte
//! safe.

ghost use Rattle.std.specs.Prelude.{◌≡◌, ◌||◌, true, OnOk};
ghost use Rattle.sedck_script.specs.View.{command_of, verb_of};
ghost use Rattle.sedck_advice.specs.Added.{AddsNoError};
ghost use Rattle.sedck_script.specs.ByteSafe.{is_high, replaces_byte, depends_on_characters};
ghost use Rattle.sedck_report.specs.Levels.{has_locale};
ghost use Rattle.sedck_advice.specs.Locale.{depends_on_locale};
ghost use Rattle.std.specs.List.{list_any};

use crate::characters::{Character, character_in, names_other_groups};
use crate::weights::weight_of_command;
use sedck_report::{Code, Finding, Fix, Level, NewText, Position, end_behind, positions};
use sedck_script::{Command, Located, Verb};
use std::alloc::{AllocError, Global};

/// The warning `locale` for each command that says something else by characters than by bytes: at the first byte that is repeated, alone or
/// in a list of `y`.
pub fn locale_warnings(
    alloc: Global,
    findings: &mut Vec<Finding>,
    text: &[u8],
    located: &Located,
) -> Result<(), AllocError>
    ensures added { OnOk result (AddsNoError findings.old.items findings.new.items) }
    ensures exactly { OnOk result (has_locale findings.new.items ≡ (has_locale findings.old.items || depends_on_locale located.now.script)) }
{
    let places = places_of(alloc, text, located)?;
    for (index, command) in located.script.commands().iter().enumerate() {
        if depends_on_characters(command) {
            let place = places.get(index).copied().unwrap_or_default();
            push_locale(alloc, findings, place)?;
        }
    }
    Ok(())
}

/// Where a command is warned of, and what mends it.
#[derive(Clone, Copy, Default)]
struct Place {
    position: Option<Position>,
    end: Option<Position>,
    fix: Option<Fix>,
}

/// The place of each command, where it would be warned of.
fn places_of(alloc: Global, text: &[u8], located: &Located) -> Result<Vec<Place>, AllocError> {
    let may_be_grouped = !names_other_groups(&located.script);
    let mut offsets = Vec::new(alloc);
    let mut characters = Vec::new(alloc);
    for location in &located.locations {
        let character = character_in(alloc, text, *location)?;
        offsets.push(match character {
            Some(character) => character.start,
            None => location.verb,
        })?;
        characters.push(character)?;
    }
    let mut places = Vec::new(alloc);
    for (position, character) in positions(alloc, text, &offsets)?.iter().zip(&characters) {
        places.push(place_at(text, *position, *character, may_be_grouped))?;
    }
    Ok(places)
}

/// The place of a command, by the character there.
fn place_at(
    text: &[u8],
    position: Position,
    character: Option<Character>,
    may_be_grouped: bool,
) -> Place {
    let mut place = Place {
        position: Some(position),
        ..Place::default()
    };
    if let Some(character) = character {
        let end = end_behind(text, position, character.length);
        place.end = Some(end);
        if let Some(inside) = character.grouped
            && may_be_grouped
        {
            place.fix = Some(Fix {
                start: position,
                end,
                text: NewText::Group(inside),
            });
        }
    }
    place
}

/// Whether the command says something else by characters than by bytes.
fn depends_on_characters(command: &Command) -> bool
    ensures { result ≡ depends_on_characters (command_of command.now) }
{
    weight_of_command(command).byte || replaces_byte(&command.verb)
}

/// Whether a byte above 127 is in a list of `y`.
fn replaces_byte(verb: &Verb) -> bool
    ensures { result ≡ replaces_byte (verb_of verb.now) }
{
    match verb {
        Verb::Transliterate(from, to) => has_high(from) || has_high(to),
        _ => false,
    }
}

/// Whether one of the bytes is above 127.
fn has_high(bytes: &[u8]) -> bool
    ensures { result ≡ list_any is_high bytes.now }
{
    bytes.iter().any(|byte| *byte > 127)
}

/// Adds the warning at this place.
fn push_locale(alloc: Global, findings: &mut Vec<Finding>, place: Place) -> Result<(), AllocError>
    ensures added { OnOk result (AddsNoError findings.old.items findings.new.items) }
    ensures exactly { OnOk result (has_locale findings.new.items ≡ true) }
{
    let message = String::from_str(
        alloc,
        "in a locale of UTF-8 sed takes whole characters here, and not bytes: nothing is known of runs there",
    )?;
    let mut finding = Finding::new(alloc, Level::Warning, Code::Locale, message);
    finding.hint = Some(
        "run the script with `LC_ALL=C`; or write whole characters, in a group to repeat them, as in `\\(..\\)*`, and replace them by an `s` in \
            place of a `y`",
    );
    finding.position = place.position;
    finding.end = place.end;
    finding.fix = place.fix;
    findings.push(finding)?;
    Ok(())
}
