//! Commands as they are written.

ghost use Rattle.std.specs.Prelude.{if◌then◌else◌, ◌≡◌, ◌≤◌, ◌<◌, ◌++◌, ◌==◌, ◌-◌, ◌+◌, ℕ, List, Bool, true, Option, length, drop, IfOk, IfErr, OnOk};
ghost use Rattle.std.specs.List.{list_any};
ghost use Rattle.sedck_text.specs.Bytes.{ascii};
ghost use Rattle.sedck_text.specs.Text.{one_of};
ghost use Rattle.sedck_text.specs.Classes.{is_mark};
ghost use Rattle.sedck_commands.specs.Program.{address_patterns};
ghost use Rattle.sedck_commands.specs.Items.{Opening, JumpTo, VerbText, Takes};
ghost use Rattle.sedck_commands.specs.ReadAlike.{MayBeBraced};
ghost use Rattle.sedck_commands.specs.Faults.{IsOfText};
ghost use Rattle.sedck_text.specs.Cursors.{unread};
ghost use Rattle.sedck_commands.specs.ItemView.{written_verb};
ghost use Rattle.sedck_commands.specs.Private.VerbReading.{is_braced, IsFreshIn, HasLabel, IsBracedAt};
ghost use Rattle.sedck_commands.specs.ReadItems.{IsJumpIn, IsFirstEmpty, CommandEmpty, written_patterns};
ghost use Rattle.sedck_commands.specs.Private.Forms.{IsForm, IsVerbAt};
ghost use Rattle.sedck_commands.specs.Private.Locating.{IsLocated};
ghost use Rattle.sedck_commands.specs.View.{address_of};
ghost use Rattle.sedck_commands.specs.FirstFaults.{takes, MayGoOn, CheckFault, AreAddresses, CommandFault, EmptyVerb};
ghost use Rattle.sedck_commands.specs.Cuts.{Longest};

use crate::addresses::split_address;
use crate::bytes::{COMMAND_LIMIT, DEPTH_LIMIT};
use crate::fault::ScriptFault;
use crate::forms::{Form, form_of};
use crate::items::{Reader, Written, WrittenCommand};
use crate::location::Location;
use crate::types::{Address, Pattern, Verb};
use crate::verbs::read_verb;
use sedck_text::{Class, Cursor};
use std::alloc::Global;

/// Whether a command with a verb of this form takes the addresses and the `!`.
fn takes(form: &Form, address: &Address, negated: bool) -> bool
    ensures { (b : ℕ) → IsForm b form.now → result ≡ takes b (address_of address.now) negated }
{
    match form {
        Form::Label => matches!(address, Address::None) && !negated,
        Form::Nothing(Verb::Quit) => !matches!(address, Address::Two(..)),
        _ => true,
    }
}

/// Whether a verb of this form opens a block.
fn opens_block(form: &Form) -> bool
    ensures { (b : ℕ) → IsForm b form.now → result ≡ (b == ascii "{") }
{
    matches!(form, Form::Block)
}

/// The fault of a byte that is no verb: addresses and a `!` may be before neither a `}` nor a comment.
fn no_verb(byte: u8, place: usize) -> ScriptFault
    ensures { result ≡ (if one_of "}#" byte then ScriptFault.TooManyAddresses place else ScriptFault.UnknownCommand place) }
{
    match byte {
        b'}' | b'#' => ScriptFault::TooManyAddresses { place },
        _ => ScriptFault::UnknownCommand { place },
    }
}

/// What the verb that begins here takes, and what follows its byte, where a command with these addresses may go on with it.
fn check_verb<'a>(
    reader: Reader<'_, 'a>,
    address: &Address,
    negated: bool,
) -> Result<(Form<'a>, Cursor<'a>), ScriptFault>
    ensures begins { IfOk result (λ x. IsVerbAt reader.entry.cursor x.0 x.1) }
    ensures may { IfOk result (λ x. MayGoOn (address_of address.now) negated reader.entry.depth reader.entry.count (unread reader.entry.cursor)) }
    ensures first { IfErr result (λ fault. CheckFault (length reader.entry.cursor.whole.now) (address_of address.now) negated
        reader.entry.depth reader.entry.count (unread reader.entry.cursor) fault) }
{
    let place = reader.cursor.offset();
    let Some((byte, behind)) = reader.cursor.split_first() else {
        return Err(ScriptFault::UnknownCommand { place });
    };
    let Some(form) = form_of(byte) else {
        return Err(no_verb(byte, place));
    };
    if !takes(&form, address, negated) {
        return Err(ScriptFault::TooManyAddresses { place });
    }
    if opens_block(&form) && reader.depth >= DEPTH_LIMIT {
        return Err(ScriptFault::TooDeep { place });
    }
    if reader.count >= COMMAND_LIMIT {
        return Err(ScriptFault::TooManyCommands { place });
    }
    Ok((form, behind))
}

/// Whether the verb may be where this many blocks are open: no `}` may be right after its label inside of two of them.
fn check_brace(verb: &Written, depth: usize) -> Result<(), ScriptFault>
    ensures allowed { OnOk result (MayBeBraced (is_braced (written_verb verb.now)) depth) }
    ensures first { IfErr result (λ fault. (tests : Bool) × (label : Option (List ℕ)) × (written_verb verb.now ≡ JumpTo tests label true)
        × (2 ≤ depth) × ((offset : ℕ) → IsBracedAt offset verb.now → fault ≡ ScriptFault.BadLabel offset)) }
{
    if let Written::JumpTo(jump) = verb {
        if let (Some(place), 2..) = (jump.brace, depth) {
            return Err(ScriptFault::BadLabel { place });
        }
    }
    Ok(())
}

/// Where the verb has an empty expression, the offset after its delimiter.
fn empty_verb(verb: &Written, behind: usize) -> Option<usize>
    ensures { (size : ℕ) (begins rest : List ℕ) → VerbText begins (written_verb verb.now) rest → behind + length begins ≡ size + 2
        → IsFirstEmpty (written_patterns (written_verb verb.now)) (EmptyVerb size begins) result }
{
    if let Written::Known(Verb::Substitute(substitution)) = verb {
        if let Pattern::Previous = substitution.pattern {
            return Some(behind);
        }
    }
    None
}

/// The verb at the start, where a command with these addresses may go on with it, and what follows it.
fn read_allowed_verb<'a>(
    alloc: Global,
    reader: Reader<'_, 'a>,
    address: &Address,
    negated: bool,
) -> Result<(Written<'a>, Cursor<'a>), ScriptFault>
    ensures read { IfOk result (λ x. VerbText (unread reader.entry.cursor) (written_verb x.0) (unread x.1)) }
    ensures same { IfOk result (λ x. x.1.whole ≡ reader.entry.cursor.whole) }
    ensures taken { IfOk result (λ x. Takes (written_verb x.0) (address_of address.now) negated) }
    ensures fresh { IfOk result (λ x. IsFreshIn reader.entry.labels.now x.0) }
    ensures shallow { IfOk result (λ x. written_verb x.0 ≡ Opening → reader.entry.depth < 64) }
    ensures braced { IfOk result (λ x. MayBeBraced (is_braced (written_verb x.0)) reader.entry.depth) }
    ensures few { IfOk result (λ x. reader.entry.count < 4095) }
    ensures jump { IfOk result (λ x. IsJumpIn (length reader.entry.cursor.whole.now)
        (drop (reader.entry.cursor.at + 1) reader.entry.cursor.whole.now) x.0) }
    ensures first { IfErr result (λ fault. IsOfText fault → (text behind marks : List ℕ) → AreAddresses text (address_of address.now) behind
        → Longest is_mark behind marks (unread reader.entry.cursor) → negated ≡ list_any (λ b. b == ascii "!") marks
        → CommandFault (length reader.entry.cursor.whole.now) (HasLabel reader.entry.labels.now) reader.entry.depth reader.entry.count text fault) }
{
    let (form, behind) = check_verb(reader, address, negated)?;
    let (verb, rest) = read_verb(alloc, reader.labels, form, behind)?;
    check_brace(&verb, reader.depth)?;
    Ok((verb, rest))
}

/// The command at the start, the offset of its first empty expression, and what follows it.
pub fn read_command<'a>(
    alloc: Global,
    reader: Reader<'_, 'a>,
) -> Result<(WrittenCommand<'a>, Option<usize>, Cursor<'a>), ScriptFault>
    ensures read { IfOk result (λ x. IsLocated (length reader.entry.cursor.whole.now) (unread reader.entry.cursor) x.0 (unread x.2)) }
    ensures same { IfOk result (λ x. x.2.whole ≡ reader.entry.cursor.whole) }
    ensures fresh { IfOk result (λ x. IsFreshIn reader.entry.labels.now x.0.verb) }
    ensures shallow { IfOk result (λ x. written_verb x.0.verb ≡ Opening → reader.entry.depth < 64) }
    ensures braced { IfOk result (λ x. MayBeBraced (is_braced (written_verb x.0.verb)) reader.entry.depth) }
    ensures few { IfOk result (λ x. reader.entry.count < 4095) }
    ensures jump { IfOk result (λ x. IsJumpIn (length reader.entry.cursor.whole.now)
        (drop (x.0.location.verb + 1) reader.entry.cursor.whole.now) x.0.verb) }
    ensures empty { IfOk result (λ x. IsFirstEmpty (address_patterns (address_of x.0.address) ++ written_patterns (written_verb x.0.verb))
        (CommandEmpty (length reader.entry.cursor.whole.now) (drop x.0.location.start reader.entry.cursor.whole.now)) x.1) }
    ensures first { IfErr result (λ fault. IsOfText fault
        → CommandFault (length reader.entry.cursor.whole.now) (HasLabel reader.entry.labels.now) reader.entry.depth reader.entry.count
        (unread reader.entry.cursor) fault) }
{
    let start = reader.cursor;
    let (address, empty, behind) = split_address(alloc, start)?;
    let (marks, begins) = behind.split(Class::Mark);
    let negated = marks.contains(&b'!');
    let at_verb = Reader {
        cursor: begins,
        ..reader
    };
    let (verb, rest) = read_allowed_verb(alloc, at_verb, &address, negated)?;
    let empty = empty.or(empty_verb(&verb, begins.offset() + 2));
    let command = WrittenCommand {
        address,
        negated,
        verb,
        location: Location {
            start: start.offset(),
            verb: begins.offset(),
            end: rest.offset(),
        },
    };
    Ok((command, empty, rest))
}
