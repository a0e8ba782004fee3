//! Items of a script: its commands as they are written, and the closings of blocks.

ghost use Rattle.std.specs.Prelude.{false, ◌≡◌, ◌<◌, ◌≤◌, ◌+◌, ◌++◌, [], ◌∷◌, length, IfOk, IfErr, OnOk};
ghost use Rattle.std.specs.Option.{option_or};
ghost use Rattle.sedck_text.specs.Bytes.{ascii};
ghost use Rattle.sedck_commands.specs.Cuts.{is_separator};
ghost use Rattle.sedck_text.specs.Cursors.{unread};
ghost use Rattle.sedck_commands.specs.Faults.{BeginsCommand, IsOfText};
ghost use Rattle.sedck_commands.specs.Private.Progress.{IsProgress, NotesLabel};
ghost use Rattle.sedck_commands.specs.ReadItems.{IsRead};
ghost use Rattle.sedck_commands.specs.ItemView.{written_verb};
ghost use Rattle.sedck_commands.specs.Blocks.{verb_turn};
ghost use Rattle.sedck_commands.specs.FirstFaults.{NotesBlock, ItemsFault};

use crate::commands::read_command;
use crate::fault::ScriptFault;
use crate::labels::{Jump, add_label};
use crate::location::Location;
use crate::texts::{end_of_command, read_comment};
use crate::types::{Address, Verb};
use indexmap::IndexMap;
use sedck_text::{Class, Cursor};
use std::alloc::Global;

/// Where a command begins, and what is known of those before it.
#[derive(Clone, Copy)]
pub struct Reader<'r, 'a> {
    pub cursor: Cursor<'a>,
    /// The places of the labels' commands.
    pub labels: &'r IndexMap<&'a [u8], usize>,
    /// How many blocks are open.
    pub depth: usize,
    /// How many commands are before it.
    pub count: usize,
}

/// A verb as it is written.
#[derive(Drop)]
pub enum Written<'a> {
    Known(Verb<'a>),
    Label(&'a [u8]),
    JumpTo(Jump<'a>),
    Opening,
}

/// A command whose label hasn't become a place yet.
#[derive(Drop)]
pub struct WrittenCommand<'a> {
    pub address: Address,
    pub negated: bool,
    pub verb: Written<'a>,
    pub location: Location,
}

#[derive(Drop)]
pub enum WrittenItem<'a> {
    Command(WrittenCommand<'a>),
    /// The `}` of a block.
    Closing,
}

/// What has been read of a script.
#[derive(Drop)]
pub struct Progress<'a> {
    pub items: Vec<WrittenItem<'a>>,
    /// How many commands are among the items.
    pub count: usize,
    /// The places of the labels' commands.
    pub labels: IndexMap<&'a [u8], usize>,
    /// The offsets of the `{` of the blocks that are open.
    pub open_blocks: Vec<usize>,
    /// The offset of the first empty expression.
    pub empty: Option<usize>,
}

/// Reads the `}` at the start with its end.
fn close_block<'a>(
    begins: Cursor<'a>,
    behind: Cursor<'a>,
    progress: &mut Progress<'a>,
) -> Result<Cursor<'a>, ScriptFault>
    requires begins { unread begins ≡ ascii "}" ∷ unread behind }
    requires behind { behind.whole ≡ begins.whole }
    requires progress { IsProgress begins.whole.now (unread begins) progress.old }
    ensures progress { IfOk result (λ rest. IsProgress begins.entry.whole.now (unread rest) progress.new) }
    ensures same { IfOk result (λ rest. rest.whole ≡ begins.entry.whole) }
    ensures shorter { IfOk result (λ rest. length (unread rest) < length (unread begins.entry)) }
    ensures first { IfErr result (λ fault. IsOfText fault → ItemsFault (length begins.entry.whole.now) [] [] begins.entry.whole.now fault) }
{
    let Some(_) = progress.open_blocks.pop() else {
        return Err(ScriptFault::UnopenedBlock {
            place: begins.offset(),
        });
    };
    let rest = end_of_command(behind)?;
    progress.items.push(WrittenItem::Closing)?;
    Ok(rest)
}

/// Adds the label that the verb defines, which isn't there yet, with the place of its command.
fn note_label<'a>(
    labels: &mut IndexMap<&'a [u8], usize>,
    verb: &Written<'a>,
    at: usize,
) -> Result<(), ScriptFault>
    ensures ok { OnOk result (NotesLabel labels.old labels.new at verb.now) }
    ensures memory { IfErr result (λ fault. fault ≡ ScriptFault.OutOfMemory) }
{
    if let Written::Label(name) = verb {
        add_label(labels, name, at)?;
    }
    Ok(())
}

/// Adds the offset of the `{` where the verb opens a block.
fn note_block(
    open_blocks: &mut Vec<usize>,
    verb: &Written,
    offset: usize,
) -> Result<(), ScriptFault>
    ensures ok { OnOk result (NotesBlock (verb_turn (written_verb verb.now)) open_blocks.old.items open_blocks.new.items offset) }
    ensures memory { IfErr result (λ fault. fault ≡ ScriptFault.OutOfMemory) }
{
    if let Written::Opening = verb {
        open_blocks.push(offset)?;
    }
    Ok(())
}

fn push_command<'a>(
    items: &mut Vec<WrittenItem<'a>>,
    command: WrittenCommand<'a>,
) -> Result<(), ScriptFault>
    ensures ok { OnOk result (items.new.items ≡ items.old.items ++ WrittenItem.Command command.entry ∷ []) }
    ensures memory { IfErr result (λ fault. fault ≡ ScriptFault.OutOfMemory) }
{
    items.push(WrittenItem::Command(command))?;
    Ok(())
}

/// Adds a command and the offset of its first empty expression. A `{` that it ends with is at `last`.
fn note_command<'a>(
    progress: &mut Progress<'a>,
    command: WrittenCommand<'a>,
    empty: Option<usize>,
    last: usize,
) -> Result<(), ScriptFault>
    requires { progress.old.count ≤ 4095 }
    ensures labels { OnOk result (NotesLabel progress.old.labels progress.new.labels progress.old.count command.entry.verb) }
    ensures opened { OnOk result (NotesBlock (verb_turn (written_verb command.entry.verb)) progress.old.open_blocks.items progress.new.open_blocks.items last) }
    ensures empty { OnOk result (progress.new.empty ≡ option_or progress.old.empty empty) }
    ensures count { OnOk result (progress.new.count ≡ progress.old.count + 1) }
    ensures items { OnOk result (progress.new.items.items ≡ progress.old.items.items ++ WrittenItem.Command command.entry ∷ []) }
    ensures memory { IfErr result (λ fault. fault ≡ ScriptFault.OutOfMemory) }
{
    note_label(&mut progress.labels, &command.verb, progress.count)?;
    note_block(&mut progress.open_blocks, &command.verb, last)?;
    progress.empty = progress.empty.or(empty);
    progress.count += 1;
    push_command(&mut progress.items, command)
}

/// Reads the command at the start with its end.
fn add_command<'a>(
    alloc: Global,
    begins: Cursor<'a>,
    progress: &mut Progress<'a>,
) -> Result<Cursor<'a>, ScriptFault>
    requires begins { BeginsCommand (unread begins) }
    requires progress { IsProgress begins.whole.now (unread begins) progress.old }
    ensures progress { IfOk result (λ rest. IsProgress begins.entry.whole.now (unread rest) progress.new) }
    ensures same { IfOk result (λ rest. rest.whole ≡ begins.entry.whole) }
    ensures shorter { IfOk result (λ rest. length (unread rest) < length (unread begins.entry)) }
    ensures first { IfErr result (λ fault. IsOfText fault → ItemsFault (length begins.entry.whole.now) [] [] begins.entry.whole.now fault) }
{
    let reader = Reader {
        cursor: begins,
        labels: &progress.labels,
        depth: progress.open_blocks.len(),
        count: progress.count,
    };
    let (command, empty, rest) = read_command(alloc, reader)?;
    let last = rest.offset() - 1;
    note_command(progress, command, empty, last)?;
    Ok(rest)
}

/// Reads the comment, the `}` or the command at the start.
fn read_item<'a>(
    alloc: Global,
    first: u8,
    begins: Cursor<'a>,
    behind: Cursor<'a>,
    progress: &mut Progress<'a>,
) -> Result<Cursor<'a>, ScriptFault>
    requires first { unread begins ≡ first ∷ unread behind }
    requires behind { behind.whole ≡ begins.whole }
    requires separator { is_separator first ≡ false }
    requires progress { IsProgress begins.whole.now (unread begins) progress.old }
    ensures progress { IfOk result (λ rest. IsProgress begins.entry.whole.now (unread rest) progress.new) }
    ensures same { IfOk result (λ rest. rest.whole ≡ begins.entry.whole) }
    ensures shorter { IfOk result (λ rest. length (unread rest) < length (unread begins.entry)) }
    ensures first { IfErr result (λ fault. IsOfText fault → ItemsFault (length begins.entry.whole.now) [] [] begins.entry.whole.now fault) }
{
    if first == b'#' {
        return read_comment(behind);
    }
    if first == b'}' {
        return close_block(begins, behind, progress);
    }
    add_command(alloc, begins, progress)
}

/// The items of the text, with what is known of them.
pub fn read_items<'a>(alloc: Global, text: &'a [u8]) -> Result<Progress<'a>, ScriptFault>
    ensures read { IfOk result (λ progress. IsRead text.now progress) }
    ensures first { IfErr result (λ fault. IsOfText fault → ItemsFault (length text.now) [] [] text.now fault) }
{
    let mut progress = Progress {
        items: Vec::new(alloc),
        count: 0,
        labels: IndexMap::new(alloc),
        open_blocks: Vec::new(alloc),
        empty: None,
    };
    let mut rest = Cursor::new(text);
    loop {
        let begins = rest.skip(Class::Separator);
        let Some((first, behind)) = begins.split_first() else {
            break;
        };
        rest = read_item(alloc, first, begins, behind, &mut progress)?;
    }
    if let Some(place) = progress.open_blocks.last() {
        return Err(ScriptFault::UnclosedBlock { place: *place });
    }
    Ok(progress)
}
