//! From a text to the script that it spells.

ghost use Rattle.std.specs.Prelude.{◌≡◌, ℕ, ◌<◌, ◌≤◌, true, false, Some, List, Err, length, map, IfOk, IfErr, OnOk, OnErr};
ghost use Rattle.sedck_commands.specs.Program.{Program, expressions};
ghost use Rattle.sedck_script.specs.Private.ExpressionReading.{has_some};
ghost use Rattle.sedck_script.specs.Spelling.{IsScriptText, AreCommands, Spells};
ghost use Rattle.sedck_commands.specs.Items.{Item, Items};
ghost use Rattle.sedck_commands.specs.Locations.{locations_of, AreInOrder};
ghost use Rattle.sedck_commands.specs.ItemView.{item_of};
ghost use Rattle.sedck_commands.specs.ReadItems.{IsRead};
ghost use Rattle.sedck_script.specs.View.{command_of};
ghost use Rattle.sedck_commands.specs.Faults.{IsPlaced, IsFirstZero, IsOfText};
ghost use Rattle.sedck_script.specs.FirstFault.{LinksFault, IsFirstFault};

use crate::expressions::{has_expression, is_quiet};
use crate::names::sorted_names;
use crate::resolving::linked;
use crate::script::{Command, Script};
use memchr::memchr;
use sedck_commands::{Access, Location, Progress, ScriptFault, TEXT_LIMIT, locations, read_items};
use std::alloc::Global;

/// Whether the text may be a script's: it isn't too long, and holds no byte 0.
fn check_text(text: &[u8]) -> Result<(), ScriptFault>
    ensures allowed { OnOk result (IsScriptText text.now) }
    ensures too_long { TEXT_LIMIT < length text.now → result ≡ Err (ScriptFault.TooLong TEXT_LIMIT) }
    ensures zero { (place : ℕ) → length text.now ≤ TEXT_LIMIT → IsFirstZero text.now place → result ≡ Err (ScriptFault.NulByte place) }
    ensures first { IfErr result (λ fault. IsFirstFault text.now fault) }
{
    if text.len() > TEXT_LIMIT {
        return Err(ScriptFault::TooLong { place: TEXT_LIMIT });
    }
    if let Some(place) = memchr(0, text) {
        return Err(ScriptFault::NulByte { place });
    }
    Ok(())
}

/// The items of the text, where it may be a script's.
fn checked_items<'a>(alloc: Global, text: &'a [u8]) -> Result<Progress<'a>, ScriptFault>
    ensures allowed { IfOk result (λ progress. IsScriptText text.now) }
    ensures read { IfOk result (λ progress. IsRead text.now progress) }
    ensures too_long { TEXT_LIMIT < length text.now → result ≡ Err (ScriptFault.TooLong TEXT_LIMIT) }
    ensures zero { (place : ℕ) → length text.now ≤ TEXT_LIMIT → IsFirstZero text.now place → result ≡ Err (ScriptFault.NulByte place) }
    ensures first { IfErr result (λ fault. IsOfText fault → IsFirstFault text.now fault) }
{
    check_text(text)?;
    read_items(alloc, text)
}

/// Whether the empty expression at the place, if there is one, has another that it stands for.
fn check_previous(empty: Option<usize>, commands: &[Command]) -> Result<(), ScriptFault>
    ensures found { OnOk result ((place : ℕ) → empty ≡ Some place → has_some (expressions (map command_of commands.now)) ≡ true) }
    ensures none { OnErr result (has_some (expressions (map command_of commands.now)) ≡ false) }
    ensures fault { IfErr result (λ fault. (place : ℕ) × (empty ≡ Some place) × (fault ≡ ScriptFault.NoPreviousExpression place)) }
{
    let Some(place) = empty else {
        return Ok(());
    };
    if has_expression(commands) {
        return Ok(());
    }
    Err(ScriptFault::NoPreviousExpression { place })
}

/// The commands of the items that were read from the text.
fn commands<'a>(
    alloc: Global,
    text: &[u8],
    progress: Progress<'a>,
) -> Result<Vec<Command<'a>>, ScriptFault>
    requires { IsRead text.now progress }
    ensures read { IfOk result (λ commands. AreCommands (map item_of progress.entry.items.items) (map command_of commands.items)) }
    ensures first { IfErr result (λ fault. IsOfText fault → (read : IsRead text.now progress.entry)
        → LinksFault text.now (map item_of progress.entry.items.items) read.spelled fault) }
{
    let Progress {
        items,
        count,
        labels,
        open_blocks: _,
        empty,
    } = progress;
    let commands = linked(alloc, items, count, &labels)?;
    check_previous(empty, &commands)?;
    Ok(commands)
}

/// The script of the items that were read from the text.
fn script<'a>(
    alloc: Global,
    text: &'a [u8],
    progress: Progress<'a>,
) -> Result<Script<'a>, ScriptFault>
    requires allowed { IsScriptText text.now }
    requires read { IsRead text.now progress }
    ensures spelled { IfOk result (λ script. Spells text.now script) }
    ensures only { IfOk result (λ script. (other : Program) → Spells text.now other → other ≡ script) }
    ensures first { IfErr result (λ fault. IsOfText fault → IsFirstFault text.now fault) }
{
    let commands = commands(alloc, text, progress)?;
    let reads = sorted_names(alloc, &commands, Access::Read)?;
    let writes = sorted_names(alloc, &commands, Access::Write)?;
    Ok(Script::new(commands, reads, writes, is_quiet(text)))
}

/// The script that the text spells.
///
/// A text spells one script at most (POSIX.1-2024 XCU sed). It is read in time linear in it, but for the sorting of at
/// most 4,095 names. Fault 1 is reported first, then 2, then what is met from left to right, then 17, 15 and 21.
#[tactic(auto, using(crate::proofs::FirstFaultPlaced::fault_placed))]
pub fn parse<'a>(alloc: Global, text: &'a [u8]) -> Result<Script<'a>, ScriptFault>
    ensures spelled { IfOk result (λ script. Spells text.now script) }
    ensures only { IfOk result (λ script. (other : Program) → Spells text.now other → other ≡ script) }
    ensures refused { IfErr result (λ fault. IsOfText fault → (other : Program) → Spells text.now other → ⊥) }
    ensures placed { IfErr result (λ fault. IsPlaced text.now fault) }
    ensures too_long { TEXT_LIMIT < length text.now → result ≡ Err (ScriptFault.TooLong TEXT_LIMIT) }
    ensures zero { (place : ℕ) → length text.now ≤ TEXT_LIMIT → IsFirstZero text.now place → result ≡ Err (ScriptFault.NulByte place) }
    ensures first { IfErr result (λ fault. IsOfText fault → IsFirstFault text.now fault) }
{
    let progress = checked_items(alloc, text)?;
    script(alloc, text, progress)
}

/// A script, and where each of its commands is in its text.
#[derive(Drop)]
pub struct Located<'a> {
    pub script: Script<'a>,
    /// As many as there are commands, in the same order.
    pub locations: Vec<Location>,
}

/// The script that the text spells, as `parse` reads it, with the location of each command.
///
/// The locations take time linear in the text. The faults are those of `parse`.
#[tactic(auto, using(crate::proofs::FirstFaultPlaced::fault_placed))]
pub fn locate<'a>(alloc: Global, text: &'a [u8]) -> Result<Located<'a>, ScriptFault>
    ensures spelled { IfOk result (λ located. Spells text.now located.script) }
    ensures only { IfOk result (λ located. (other : Program) → Spells text.now other → other ≡ located.script) }
    ensures count { IfOk result (λ located. length located.locations.items ≡ length located.script.commands) }
    ensures locations { IfOk result (λ located. (items : List Item) (spelled : Items text.now items)
        → located.locations.items ≡ locations_of (length text.now) spelled) }
    ensures order { IfOk result (λ located. AreInOrder 0 (length text.now) located.locations.items) }
    ensures refused { IfErr result (λ fault. IsOfText fault → (other : Program) → Spells text.now other → ⊥) }
    ensures placed { IfErr result (λ fault. IsPlaced text.now fault) }
    ensures too_long { TEXT_LIMIT < length text.now → result ≡ Err (ScriptFault.TooLong TEXT_LIMIT) }
    ensures zero { (place : ℕ) → length text.now ≤ TEXT_LIMIT → IsFirstZero text.now place → result ≡ Err (ScriptFault.NulByte place) }
    ensures first { IfErr result (λ fault. IsOfText fault → IsFirstFault text.now fault) }
{
    let progress = checked_items(alloc, text)?;
    let locations = locations(alloc, &progress.items)?;
    let script = script(alloc, text, progress)?;
    Ok(Located { script, locations })
}
