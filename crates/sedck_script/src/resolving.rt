//! From items to commands: the places that branches, tests and blocks lead to.

ghost use Rattle.std.specs.Prelude.{◌≡◌, ◌+◌, drop, ℕ, List, [], IfNone, IfSome, Some, None, length, map, All, IfOk, IfErr, OnOk, option_copied};
ghost use Rattle.sedck_script.specs.View as view;
ghost use Rattle.sedck_commands.specs.Faults.{IsOfText};
ghost use Rattle.sedck_script.specs.Resolution.{Resolves};
ghost use Rattle.sedck_commands.specs.Labels.{HasLabels, label_place, commands_among};
ghost use Rattle.sedck_script.specs.Private.Resolving.{IsFirstLost, TakesTarget, IsKnownLabel, label_of, item_label, target_of, resolved_command};
ghost use Rattle.sedck_commands.specs.ItemView.{written_verb, item_of};
ghost use Rattle.sedck_commands.specs.ReadItems.{IsItemAt};
ghost use Rattle.sedck_commands.specs.Blocks.{Nests, verb_turn};
ghost use Rattle.sedck_commands.specs.FirstFaults.{LabelBeginsAt};
ghost use Rattle.sedck_commands.specs.declared.items.WrittenCommand.{WrittenCommand};

use crate::script::Command;
use indexmap::IndexMap;
use sedck_commands::{Jump, ScriptFault, Verb, Written, WrittenCommand, WrittenItem, place_of};
use std::alloc::Global;

/// The place that a label leads to: the end where there is none.
fn target_of(labels: &IndexMap<&[u8], usize>, end: usize, label: Option<&[u8]>) -> usize
    ensures { result ≡ target_of labels.now end (option_copied label.entry) }
{
    match label {
        Some(name) => place_of(labels, name).unwrap_or(end),
        None => end,
    }
}

/// The command with its target; a block leads to the given place.
fn command_of<'a>(
    labels: &IndexMap<&'a [u8], usize>,
    end: usize,
    block: usize,
    command: WrittenCommand<'a>,
) -> Command<'a>
    ensures { view.command_of result ≡ resolved_command labels.now end block command.entry }
{
    let WrittenCommand {
        address,
        negated,
        verb,
        location: _,
    } = command;
    let verb = match verb {
        Written::Known(verb) => verb,
        Written::Label(name) => Verb::Label(name),
        Written::JumpTo(jump) if jump.tests => Verb::Test(target_of(labels, end, jump.label)),
        Written::JumpTo(jump) => Verb::Branch(target_of(labels, end, jump.label)),
        Written::Opening => Verb::Block(block),
    };
    Command {
        address,
        negated,
        verb,
    }
}

/// The target of the block that the verb opens, taken from the end of the list; the end for another verb.
fn block_target(verb: &Written, targets: &mut Vec<usize>, end: usize) -> usize
    ensures { TakesTarget (verb_turn (written_verb verb.now)) targets.old.items targets.new.items result }
{
    if let Written::Opening = verb {
        return targets.pop().unwrap_or(end);
    }
    end
}

/// The label of a branch or a test, and its offset.
fn label_of<'a>(item: &WrittenItem<'a>) -> Option<(&'a [u8], usize)>
    ensures none { IfNone result (item_label (item_of item.now) ≡ None) }
    ensures some { IfSome result (λ x. item_label (item_of item.now) ≡ Some x.0.now) }
    ensures command { IfSome result (λ x. (command : WrittenCommand) × (item.now ≡ WrittenItem.Command command)
        × ((text : List ℕ) → IsItemAt text item.now → LabelBeginsAt (length text) (drop (command.location.verb + 1) text) x.0.now x.1)) }
{
    let WrittenItem::Command(command) = item else {
        return None;
    };
    match &command.verb {
        Written::JumpTo(Jump { label, offset, .. }) => label.map(|name| (name, *offset)),
        Written::Known(_) | Written::Label(_) | Written::Opening => None,
    }
}

/// Whether the label of a branch or a test is known.
fn check_target(item: &WrittenItem, labels: &IndexMap<&[u8], usize>) -> Result<(), ScriptFault>
    ensures known { OnOk result (IsKnownLabel labels.now (item_label (item_of item.now))) }
    ensures first { IfErr result (λ fault. (command : WrittenCommand) × (name : List ℕ) × (item.now ≡ WrittenItem.Command command)
        × (item_label (item_of item.now) ≡ Some name) × (label_place labels.now name ≡ None) × ((text : List ℕ) → IsItemAt text item.now
        → (offset : ℕ) × (fault ≡ ScriptFault.UnknownLabel offset) × LabelBeginsAt (length text) (drop (command.location.verb + 1) text) name offset)) }
{
    if let Some((name, offset)) = label_of(item) {
        if place_of(labels, name).is_none() {
            return Err(ScriptFault::UnknownLabel { place: offset });
        }
    }
    Ok(())
}

/// Whether each label is known, and else the first that isn't.
fn check_targets(items: &[WrittenItem], labels: &IndexMap<&[u8], usize>) -> Result<(), ScriptFault>
    ensures known { OnOk result (All (λ item. IsKnownLabel labels.now (item_label (item_of item))) items.now) }
    ensures first { IfErr result (λ fault. IsFirstLost labels.now items.now fault) }
{
    for item in items {
        check_target(item, labels)?;
    }
    Ok(())
}

/// The commands of the items, with the places that they lead to, where each label is known.
pub fn linked<'a>(
    alloc: Global,
    items: Vec<WrittenItem<'a>>,
    end: usize,
    labels: &IndexMap<&'a [u8], usize>,
) -> Result<Vec<Command<'a>>, ScriptFault>
    requires labels { HasLabels labels.now (commands_among (map item_of items.items)) }
    requires nests { Nests (map item_of items.items) 0 }
    requires end { end ≡ length (commands_among (map item_of items.items)) }
    ensures resolved { IfOk result (λ v. Resolves (map view.command_of v.items) [] 0 (map item_of items.entry.items) (map view.command_of v.items)) }
    ensures known { IfOk result (λ v. All (λ item. IsKnownLabel labels.now (item_label (item_of item))) items.entry.items) }
    ensures first { IfErr result (λ fault. IsOfText fault → IsFirstLost labels.now items.entry.items fault) }
{
    check_targets(&items, labels)?;
    resolve(alloc, items, end, labels)
}

/// The commands of the items, with the places that they lead to.
fn resolve<'a>(
    alloc: Global,
    mut items: Vec<WrittenItem<'a>>,
    end: usize,
    labels: &IndexMap<&'a [u8], usize>,
) -> Result<Vec<Command<'a>>, ScriptFault>
    requires labels { HasLabels labels.now (commands_among (map item_of items.items)) }
    requires known { All (λ item. IsKnownLabel labels.now (item_label (item_of item))) items.items }
    requires nests { Nests (map item_of items.items) 0 }
    requires end { end ≡ length (commands_among (map item_of items.items)) }
    ensures resolved { IfOk result (λ v. Resolves (map view.command_of v.items) [] 0 (map item_of items.entry.items) (map view.command_of v.items)) }
    ensures memory { IfErr result (λ fault. fault ≡ ScriptFault.OutOfMemory) }
{
    let mut commands = Vec::new(alloc);
    let mut targets = Vec::new(alloc);
    while let Some(item) = items.pop() {
        match item {
            WrittenItem::Closing => {
                targets.push(end - commands.len())?;
            }
            WrittenItem::Command(command) => {
                let block = block_target(&command.verb, &mut targets, end);
                commands.push(command_of(labels, end, block, command))?;
            }
        }
    }
    commands.reverse();
    Ok(commands)
}
