//! Sorted lists of the names of files that commands give.

ghost use Rattle.std.specs.Prelude.{◌≡◌, ◌++◌, OnOk, map, IfErr, IfOk, option_to_list};
ghost use Rattle.std.specs.Option.{option_copied};
ghost use Rattle.sedck_script.specs.Names.{accessed, sorted_names as sorted};
ghost use Rattle.sedck_commands.specs.View.{verb_of};
ghost use Rattle.sedck_script.specs.View.{command_of};
ghost use Rattle.sedck_script.specs.Private.NameReading.{all_accessed};

use crate::script::Command;
use sedck_commands::{Access, ScriptFault, Verb};
use std::alloc::Global;

/// The file that a command reads, or writes by its verb or its flag.
pub fn name_of<'a>(command: &Command<'a>, access: Access) -> Option<&'a [u8]>
    ensures { option_to_list (option_copied result) ≡ accessed access (verb_of command.now.verb) }
{
    match (&command.verb, access) {
        (Verb::Read(name), Access::Read) | (Verb::Write(name), Access::Write) => Some(*name),
        (Verb::Substitute(substitution), Access::Write) => substitution.file,
        _ => None,
    }
}

/// Adds a name at the end, where there is one.
fn push_any<'a>(names: &mut Vec<&'a [u8]>, name: Option<&'a [u8]>) -> Result<(), ScriptFault>
    ensures ok { OnOk result (map (λ n. n.now) names.new.items ≡ map (λ n. n.now) names.old.items ++ option_to_list (option_copied name.entry)) }
    ensures memory { IfErr result (λ fault. fault ≡ ScriptFault.OutOfMemory) }
{
    if let Some(name) = name {
        names.push(name)?;
    }
    Ok(())
}

/// The names of the files that the commands read, or write, in the order of the commands.
fn all_names<'a>(
    alloc: Global,
    commands: &[Command<'a>],
    access: Access,
) -> Result<Vec<&'a [u8]>, ScriptFault>
    ensures names { IfOk result (λ names. map (λ n. n.now) names.items ≡ all_accessed access (map command_of commands.now)) }
    ensures memory { IfErr result (λ fault. fault ≡ ScriptFault.OutOfMemory) }
{
    let mut names = Vec::new(alloc);
    for command in commands {
        push_any(&mut names, name_of(command, access))?;
    }
    Ok(names)
}

/// The names of the files that the commands read, or write: each once, sorted by bytes.
pub fn sorted_names<'a>(
    alloc: Global,
    commands: &[Command<'a>],
    access: Access,
) -> Result<Vec<&'a [u8]>, ScriptFault>
    ensures sorted { IfOk result (λ names. map (λ n. n.now) names.items ≡ sorted (all_accessed access (map command_of commands.now))) }
    ensures memory { IfErr result (λ fault. fault ≡ ScriptFault.OutOfMemory) }
{
    let mut names = all_names(alloc, commands, access)?;
    names.sort_unstable();
    names.dedup();
    Ok(names)
}
