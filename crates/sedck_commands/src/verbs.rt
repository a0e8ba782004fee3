//! Verbs with what they take.

ghost use Rattle.std.specs.Prelude.{◌≡◌, ◌≢◌, ◌<◌, ◌-◌, ℕ, List, ◌∷◌, IfOk, IfErr, length};
ghost use Rattle.sedck_text.specs.Bytes.{ascii};
ghost use Rattle.sedck_commands.specs.Program as clean;
ghost use Rattle.sedck_commands.specs.Items.{Known, Simple, VerbText};
ghost use Rattle.sedck_commands.specs.Faults.{IsOfText};
ghost use Rattle.sedck_text.specs.Cursors.{unread};
ghost use Rattle.sedck_commands.specs.View.{verb_of};
ghost use Rattle.sedck_commands.specs.ItemView.{written_verb};
ghost use Rattle.sedck_commands.specs.ReadItems.{IsJumpIn};
ghost use Rattle.sedck_commands.specs.Private.VerbReading.{IsFreshIn, HasLabel, IsBracedAt};
ghost use Rattle.sedck_commands.specs.Private.Forms.{IsForm, text_byte, file_byte, jump_byte};
ghost use Rattle.sedck_commands.specs.FirstFaults.{EndFault, TextFault, NameFault, LabelFault, JumpFault, VerbFault};

use crate::fault::ScriptFault;
use crate::forms::{Form, TextVerb};
use crate::items::Written;
use crate::labels::{place_of, read_definition, read_jump};
use crate::names::{Access, read_name};
use crate::substitutions::{read_substitution, read_transliteration};
use crate::texts::{end_of_command, read_text};
use crate::types::Verb;
use indexmap::IndexMap;
use sedck_text::{Class, Cursor};
use std::alloc::Global;

/// The end of a verb that takes nothing, and the rest of the script from there on.
fn read_simple_verb<'a>(
    verb: Verb<'a>,
    text: Cursor<'a>,
) -> Result<(Written<'a>, Cursor<'a>), ScriptFault>
    requires { (b : ℕ) × Simple b (verb_of verb) }
    ensures read { IfOk result (λ x. (b : ℕ) → Simple b (verb_of verb.entry) → VerbText (b ∷ unread text.entry) (written_verb x.0) (unread x.1)) }
    ensures same { IfOk result (λ x. x.1.whole ≡ text.entry.whole) }
    ensures no_label { IfOk result (λ x. (name : List ℕ) → written_verb x.0 ≢ Known (clean.Label name)) }
    ensures brace { IfOk result (λ x. IsBracedAt x.1.at x.0) }
    ensures jump { IfOk result (λ x. IsJumpIn (length text.entry.whole.now) (unread text.entry) x.0) }
    ensures first { IfErr result (λ fault. EndFault (length text.entry.whole.now) (unread text.entry) fault) }
{
    let rest = end_of_command(text)?;
    Ok((Written::Known(verb), rest))
}

/// The text after a verb, and the rest of the script from its end on.
fn read_text_verb<'a>(
    verb: TextVerb,
    text: Cursor<'a>,
) -> Result<(Written<'a>, Cursor<'a>), ScriptFault>
    requires { 0 < text.at }
    ensures read { IfOk result (λ x. VerbText (text_byte verb ∷ unread text.entry) (written_verb x.0) (unread x.1)) }
    ensures same { IfOk result (λ x. x.1.whole ≡ text.entry.whole) }
    ensures no_label { IfOk result (λ x. (name : List ℕ) → written_verb x.0 ≢ Known (clean.Label name)) }
    ensures brace { IfOk result (λ x. IsBracedAt x.1.at x.0) }
    ensures jump { IfOk result (λ x. IsJumpIn (length text.entry.whole.now) (unread text.entry) x.0) }
    ensures first { IfErr result (λ fault. TextFault (text.entry.at - 1) (unread text.entry) fault) }
{
    let Some((bytes, rest)) = read_text(text.skip(Class::Blank)) else {
        return Err(ScriptFault::MissingText {
            place: text.offset() - 1,
        });
    };
    match verb {
        TextVerb::Append => Ok((Written::Known(Verb::Append(bytes)), rest)),
        TextVerb::Change => Ok((Written::Known(Verb::Change(bytes)), rest)),
        TextVerb::Insert => Ok((Written::Known(Verb::Insert(bytes)), rest)),
    }
}

/// The file after a verb, and the rest of the script from the end of its line on.
fn read_file_verb<'a>(
    access: Access,
    text: Cursor<'a>,
) -> Result<(Written<'a>, Cursor<'a>), ScriptFault>
    requires { 0 < text.at }
    ensures read { IfOk result (λ x. VerbText (file_byte access ∷ unread text.entry) (written_verb x.0) (unread x.1)) }
    ensures same { IfOk result (λ x. x.1.whole ≡ text.entry.whole) }
    ensures no_label { IfOk result (λ x. (name : List ℕ) → written_verb x.0 ≢ Known (clean.Label name)) }
    ensures brace { IfOk result (λ x. IsBracedAt x.1.at x.0) }
    ensures jump { IfOk result (λ x. IsJumpIn (length text.entry.whole.now) (unread text.entry) x.0) }
    ensures first { IfErr result (λ fault. NameFault (length text.entry.whole.now) (text.entry.at - 1) (unread text.entry) fault) }
{
    let (name, rest) = read_name(text.offset() - 1, text)?;
    match access {
        Access::Read => Ok((Written::Known(Verb::Read(name)), rest)),
        Access::Write => Ok((Written::Known(Verb::Write(name)), rest)),
    }
}

/// The label that is defined after a `:`, and the rest of the script from its end on.
fn read_label<'a>(
    labels: &IndexMap<&'a [u8], usize>,
    text: Cursor<'a>,
) -> Result<(Written<'a>, Cursor<'a>), ScriptFault>
    ensures read { IfOk result (λ x. VerbText (ascii ":" ∷ unread text.entry) (written_verb x.0) (unread x.1)) }
    ensures same { IfOk result (λ x. x.1.whole ≡ text.entry.whole) }
    ensures fresh { IfOk result (λ x. IsFreshIn labels.now x.0) }
    ensures brace { IfOk result (λ x. IsBracedAt x.1.at x.0) }
    ensures jump { IfOk result (λ x. IsJumpIn (length text.entry.whole.now) (unread text.entry) x.0) }
    ensures first { IfErr result (λ fault. LabelFault (length text.entry.whole.now) (HasLabel labels.now) (unread text.entry) fault) }
{
    let (name, offset, behind) = read_definition(text)?;
    if place_of(labels, name).is_some() {
        return Err(ScriptFault::DuplicateLabel { place: offset });
    }
    let rest = end_of_command(behind)?;
    Ok((Written::Label(name), rest))
}

/// The label after a branch or a test, or none, and the rest of the script from its end on.
fn read_branch<'a>(tests: bool, text: Cursor<'a>) -> Result<(Written<'a>, Cursor<'a>), ScriptFault>
    ensures read { IfOk result (λ x. VerbText (jump_byte tests ∷ unread text.entry) (written_verb x.0) (unread x.1)) }
    ensures same { IfOk result (λ x. x.1.whole ≡ text.entry.whole) }
    ensures no_label { IfOk result (λ x. (name : List ℕ) → written_verb x.0 ≢ Known (clean.Label name)) }
    ensures brace { IfOk result (λ x. IsBracedAt x.1.at x.0) }
    ensures jump { IfOk result (λ x. IsJumpIn (length text.entry.whole.now) (unread text.entry) x.0) }
    ensures first { IfErr result (λ fault. JumpFault (length text.entry.whole.now) (unread text.entry) fault) }
{
    let (jump, rest) = read_jump(tests, text)?;
    Ok((Written::JumpTo(jump), rest))
}

/// What a verb of this form takes, from right after its byte on, and the rest of the text from its end on.
///
/// The labels are those that are before it: one of them may not be defined again. That is reported before the end of the
/// command is looked at.
pub fn read_verb<'a>(
    alloc: Global,
    labels: &IndexMap<&'a [u8], usize>,
    form: Form<'a>,
    text: Cursor<'a>,
) -> Result<(Written<'a>, Cursor<'a>), ScriptFault>
    requires { (b : ℕ) × IsForm b form × (0 < text.at) }
    ensures read { IfOk result (λ x. (b : ℕ) → IsForm b form.entry → VerbText (b ∷ unread text.entry) (written_verb x.0) (unread x.1)) }
    ensures same { IfOk result (λ x. x.1.whole ≡ text.entry.whole) }
    ensures fresh { IfOk result (λ x. IsFreshIn labels.now x.0) }
    ensures brace { IfOk result (λ x. IsBracedAt x.1.at x.0) }
    ensures jump { IfOk result (λ x. IsJumpIn (length text.entry.whole.now) (unread text.entry) x.0) }
    ensures first { IfErr result (λ fault. IsOfText fault → (b : ℕ) → IsForm b form.entry
        → VerbFault (length text.entry.whole.now) (HasLabel labels.now) (b ∷ unread text.entry) fault) }
{
    match form {
        Form::Nothing(verb) => read_simple_verb(verb, text),
        Form::Text(verb) => read_text_verb(verb, text),
        Form::File(access) => read_file_verb(access, text),
        Form::Label => read_label(labels, text),
        Form::Jump { tests } => read_branch(tests, text),
        Form::Block => Ok((Written::Opening, text)),
        Form::Substitution => read_substitution(alloc, text),
        Form::Transliteration => read_transliteration(alloc, text),
    }
}
