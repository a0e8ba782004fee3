//! The plain text of a script, which is given out only where it was read as the same program.

ghost use Rattle.std.specs.Prelude.{◌≡◌, ◌↔◌, map, IfOk, IfErr, OnOk};
ghost use Rattle.sedck_script.specs.Program.{Program};
ghost use Rattle.sedck_script.specs.Spelling.{Spells};
ghost use Rattle.sedck_plain.specs.declared.plain.Fault.TheVariants.{OutOfMemory};
ghost use Rattle.sedck_plain.specs.Plain.{SpellSame, IsOutOfMemory, IsRefused, IsNoRefusal, ReportsFault};
ghost use Rattle.sedck_plain.specs.WrittenLists.{HaveSameLists};
ghost use Rattle.sedck_plain.specs.Private.Cutting.{AreLocations, HasLists, bytes_of};
ghost use Rattle.sedck_plain.specs.Private.Refusals.{unless_memory};

use crate::layout::{Comments, laid_out};
use crate::same::{same_command, same_program};
use crate::written::script_lists;
use sedck_commands::TEXT_LIMIT;
use sedck_script::{Located, Location, Script, ScriptFault, locate, parse};
use std::alloc::{AllocError, Global};

/// Why there is no plain text.
#[derive(Clone, Copy, Drop)]
pub enum Fault {
    /// The script is refused.
    Script(ScriptFault),
    /// What was printed spells no script, or another one: the command at this place among the commands is read otherwise, or has other
    /// bracket lists.
    NoSpelling(usize),
    /// What was printed is longer than a script may be.
    TooLong,
    OutOfMemory,
}

impl From<AllocError> for Fault {
    ghost from_gives = { λ _ fault. fault ≡ OutOfMemory };

    fn from(_: AllocError) -> Fault {
        Fault::OutOfMemory
    }
}

/// A script in its plain spelling, without comments: a text that spells the very program that the script spells.
///
/// Each bracket list is written as the script has it, since a set of bytes doesn't say what its list is in other locales. That the text is
/// plain, and the same for each spelling of a program with its lists, isn't proved: it is printed, and what was printed is read and
/// compared.
pub fn plain_text(alloc: Global, script: &[u8]) -> Result<Vec<u8>, Fault>
    ensures same { IfOk result (λ text. SpellSame script.now text.items) }
    ensures refused { (¬ IsOutOfMemory result) → (IsRefused result ↔ ((p : Program) → ¬ Spells script.now p)) }
    ensures reported { ReportsFault script.now result }
{
    match parse(alloc, script) {
        Ok(program) => plain_of(alloc, script, &program, Comments::LeftOut),
        Err(fault) => Err(unless_memory(fault, Fault::Script(fault))),
    }
}

/// This fault of a text that isn't read, unless memory ran out.
fn unless_memory(fault: ScriptFault, other: Fault) -> Fault
    ensures { result ≡ unless_memory fault other }
{
    match fault {
        ScriptFault::OutOfMemory => Fault::OutOfMemory,
        _ => other,
    }
}

/// The same for a program that was read from this script, perhaps with the script's comments: a text that spells it, with the bracket lists
/// of the script. There is none where the script spells another one.
pub fn plain_of(
    alloc: Global,
    script: &[u8],
    program: &Script,
    comments: Comments,
) -> Result<Vec<u8>, Fault>
    ensures spelled { IfOk result (λ text. Spells text.items program.now) }
    ensures lists { IfOk result (λ text. HaveSameLists script.now text.items) }
    ensures fault { IfErr result IsNoRefusal }
{
    let located = located(alloc, script, &[])?;
    let lists = script_lists(alloc, script, &located.locations)?;
    let (text, locations) = laid_out(alloc, script, &located, &lists, comments)?;
    if text.len() > TEXT_LIMIT {
        return Err(Fault::TooLong);
    }
    compare(alloc, &text, &locations, program, &lists)?;
    Ok(text)
}

/// The script of the text, and where its commands are. Of a text that was printed, these locations say which command isn't read.
fn located<'a>(alloc: Global, text: &'a [u8], printed: &[Location]) -> Result<Located<'a>, Fault>
    ensures spelled { IfOk result (λ located. Spells text.now located.script) }
    ensures located { IfOk result (λ located. AreLocations text.now located.locations.items) }
    ensures fault { IfErr result IsNoRefusal }
{
    match locate(alloc, text) {
        Ok(located) => Ok(located),
        Err(fault) => {
            let place = place_at(printed, fault.place().unwrap_or(0));
            Err(unless_memory(fault, Fault::NoSpelling(place)))
        }
    }
}

/// Whether what was printed, with its commands at these locations, spells the program with these lists: if not, which command doesn't.
fn compare(
    alloc: Global,
    text: &[u8],
    locations: &[Location],
    program: &Script,
    lists: &[Vec<u8>],
) -> Result<(), Fault>
    ensures spelled { OnOk result (Spells text.now program.now) }
    ensures lists { OnOk result (HasLists text.now (map bytes_of lists.now)) }
    ensures fault { IfErr result IsNoRefusal }
{
    let other = located(alloc, text, locations)?;
    if !same_program(&other.script, program) {
        let commands = program.commands();
        let pairs = commands.iter().zip(other.script.commands());
        let same = pairs.take_while(|(one, other)| same_command(one, other));
        let last = commands.len().saturating_sub(1);
        return Err(Fault::NoSpelling(same.count().min(last)));
    }
    let others = script_lists(alloc, text, &other.locations)?;
    if lists != others.as_slice() {
        let same = lists
            .iter()
            .zip(&others)
            .take_while(|(one, other)| one == other);
        return Err(Fault::NoSpelling(same.count()));
    }
    Ok(())
}

/// The place of the last command that begins at the offset or before it.
fn place_at(locations: &[Location], offset: usize) -> usize {
    let begun = locations
        .iter()
        .take_while(|location| location.start <= offset)
        .count();
    begun.saturating_sub(1)
}
