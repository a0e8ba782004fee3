//! Labels after `:`, `b` and `t`, and the places of the commands that define them.

ghost use Rattle.std.specs.Prelude.{◌≡◌, ◌<◌, ◌+◌, ℕ, false, List, Option, length, is_some, option_copied, IfOk, IfErr, IfSome, OnOk, Some, if◌then◌else◌, ◌∷◌};
ghost use Rattle.sedck_text.specs.Text.{begins};
ghost use Rattle.sedck_text.specs.Cursors.{unread};
ghost use Rattle.sedck_commands.specs.Cuts.{is_ending, IsEmptyOr, is_separator};
ghost use Rattle.sedck_commands.specs.Parts.{LabelText};
ghost use Rattle.sedck_commands.specs.Items.{IsNoComment, IsNoBrace};
ghost use Rattle.sedck_commands.specs.Private.Alike.{EndsJump};
ghost use Rattle.sedck_commands.specs.ReadAlike.{begins_braced_comment};
ghost use Rattle.sedck_commands.specs.Private.Reading.{IsLabelAt};
ghost use Rattle.sedck_commands.specs.Labels.{label_place};
ghost use Rattle.sedck_commands.specs.Private.LabelReading.{BranchText};
ghost use Rattle.std.specs.Str.{bytes_eq};
ghost use Rattle.sedck_commands.specs.FirstFaults.{LabelBeginsAt, DefinitionFault, JumpFault, ends_label, MayLackLabel};

use crate::bytes::is_ending;
use crate::fault::ScriptFault;
use crate::texts::end_of_command;
use indexmap::IndexMap;
use sedck_text::{Class, Cursor};

/// Where a branch or a test leads.
#[derive(Clone, Copy)]
pub struct Jump<'a> {
    pub tests: bool,
    pub label: Option<&'a [u8]>,
    /// The offset of the label's first byte, or of what is there where it is missing.
    pub offset: usize,
    /// The offset of a `}` that is right after the label.
    pub brace: Option<usize>,
}

/// The bytes of a label after blanks, their offset, and what follows them. There may be none.
fn split_label<'a>(text: Cursor<'a>) -> (&'a [u8], usize, Cursor<'a>)
    ensures parts { IsLabelAt (unread text.entry) result.0.now (unread result.2) }
    ensures same { result.2.whole ≡ text.entry.whole }
    ensures offset { result.1 + length result.0.now ≡ result.2.at }
{
    let begins = text.skip(Class::Blank);
    let (name, behind) = begins.split(Class::Label);
    (name, begins.offset(), behind)
}

/// Whether a label that is defined may end here.
fn check_behind_definition<'a>(behind: Cursor<'a>) -> Result<(), ScriptFault>
    ensures allowed { OnOk result (IsNoBrace (unread behind.entry)) }
    ensures free { OnOk result (IsEmptyOr is_separator (unread behind.entry)) }
    ensures first { IfErr result (λ fault. (b : ℕ) × (more : List ℕ) × (unread behind.entry ≡ b ∷ more)
        × (is_separator b ≡ false) × (fault ≡ ScriptFault.BadLabel behind.entry.at)) }
{
    if let Some(next) = behind.first() {
        if !Class::Separator.has(next) {
            return Err(ScriptFault::BadLabel {
                place: behind.offset(),
            });
        }
    }
    Ok(())
}

/// The label that is defined, its offset, and what follows it.
pub fn read_definition<'a>(text: Cursor<'a>) -> Result<(&'a [u8], usize, Cursor<'a>), ScriptFault>
    ensures read { IfOk result (λ x. LabelText (unread text.entry) x.0.now (unread x.2) × IsNoBrace (unread x.2)) }
    ensures same { IfOk result (λ x. x.2.whole ≡ text.entry.whole) }
    ensures at { IfOk result (λ x. IsLabelAt (unread text.entry) x.0.now (unread x.2)) }
    ensures offset { IfOk result (λ x. x.1 + length x.0.now ≡ x.2.at) }
    ensures free { IfOk result (λ x. IsEmptyOr is_separator (unread x.2)) }
    ensures first { IfErr result (λ fault. DefinitionFault (length text.entry.whole.now) (unread text.entry) fault) }
{
    let (name, offset, behind) = split_label(text);
    if name.is_empty() {
        return Err(ScriptFault::BadLabel { place: offset });
    }
    check_behind_definition(behind)?;
    Ok((name, offset, behind))
}

/// Whether the label of a branch may end here.
fn check_behind_label<'a>(behind: Cursor<'a>) -> Result<(), ScriptFault>
    ensures allowed { OnOk result (IsNoComment (unread behind.entry)) }
    ensures free { OnOk result (IsEmptyOr ends_label (unread behind.entry)) }
    ensures first { IfErr result (λ fault. (b : ℕ) × (more : List ℕ) × (unread behind.entry ≡ b ∷ more)
        × (ends_label b ≡ false) × (fault ≡ ScriptFault.BadLabel behind.entry.at)) }
{
    if let Some(next) = behind.first() {
        if !Class::Separator.has(next) && next != b'}' {
            return Err(ScriptFault::BadLabel {
                place: behind.offset(),
            });
        }
    }
    Ok(())
}

/// Whether one or more `}` begin the text, and a `#` is right after them.
fn begins_braced_comment(text: &[u8]) -> bool
    ensures { result ≡ begins_braced_comment text.now }
{
    let mut rest = text;
    'braces: while let [b'}', behind @ ..] = rest {
        if behind.starts_with(b"#") {
            return true;
        }
        rest = behind;
    }
    false
}

/// The rest of the text from the end of a branch with a label on. Some seds take a `}` right after the label for a part of it, and
/// a comment after that too.
fn end_of_jump<'a>(behind: Cursor<'a>) -> Result<Cursor<'a>, ScriptFault>
    ensures read { IfOk result (λ rest. EndsJump (unread behind.entry) (unread rest)) }
    ensures same { IfOk result (λ x. x.whole ≡ behind.entry.whole) }
    ensures first { IfErr result (λ fault. (text name : List ℕ) → IsLabelAt text name (unread behind.entry) → 0 < length name
        → IsEmptyOr ends_label (unread behind.entry) → JumpFault (length behind.entry.whole.now) text fault) }
{
    let rest = end_of_command(behind)?;
    if begins_braced_comment(rest.unread()) {
        return Err(ScriptFault::BadLabel {
            place: behind.offset(),
        });
    }
    Ok(rest)
}

/// Whether a branch without a label may end here, after its blanks. A comment may not follow, since some seds take it for a
/// label.
fn check_no_label<'a>(begins: Cursor<'a>) -> Result<(), ScriptFault>
    ensures allowed { OnOk result (IsNoComment (unread begins.entry) × IsEmptyOr is_ending (unread begins.entry)
        × (begins_braced_comment (unread begins.entry) ≡ false)) }
    ensures first { IfErr result (λ fault. (MayLackLabel (unread begins.entry) → ⊥) × (fault ≡ ScriptFault.BadLabel begins.entry.at)) }
{
    if let Some(next) = begins.first() {
        if !is_ending(next) || next == b'#' || begins_braced_comment(begins.unread()) {
            return Err(ScriptFault::BadLabel {
                place: begins.offset(),
            });
        }
    }
    Ok(())
}

/// The offset of the `}` that is right after a label, or after a verb without one.
fn brace_behind<'a>(behind: Cursor<'a>) -> Option<usize>
    ensures brace { is_some result ≡ begins "}" (unread behind.entry) }
    ensures at { IfSome result (λ place. place ≡ behind.entry.at) }
{
    if behind.unread().starts_with(b"}") {
        return Some(behind.offset());
    }
    None
}

/// The label of a branch or a test, or none, and the rest of the text from the command's end on.
pub fn read_jump<'a>(tests: bool, text: Cursor<'a>) -> Result<(Jump<'a>, Cursor<'a>), ScriptFault>
    ensures read { IfOk result (λ x. BranchText (unread text.entry) (option_copied x.0.label) (is_some x.0.brace) (unread x.1)) }
    ensures same { IfOk result (λ x. x.1.whole ≡ text.entry.whole) }
    ensures tests { IfOk result (λ x. x.0.tests ≡ tests) }
    ensures first { IfErr result (λ fault. JumpFault (length text.entry.whole.now) (unread text.entry) fault) }
    ensures ends { IfOk result (λ x. IfSome x.0.brace (λ place. place ≡ x.1.at)) }
    ensures jump { IfOk result (λ x. IfSome (option_copied x.0.label)
        (λ name. LabelBeginsAt (length text.entry.whole.now) (unread text.entry) name x.0.offset)) }
{
    let (name, offset, behind) = split_label(text);
    let brace = brace_behind(behind);
    let (label, rest) = if name.is_empty() {
        check_no_label(behind)?;
        (None, behind)
    } else {
        check_behind_label(behind)?;
        (Some(name), end_of_jump(behind)?)
    };
    let jump = Jump {
        tests,
        label,
        offset,
        brace,
    };
    Ok((jump, rest))
}

/// The place that a map has for a label.
pub fn place_of(labels: &IndexMap<&[u8], usize>, name: &[u8]) -> Option<usize>
    ensures { result ≡ label_place labels.now name.now }
{
    labels.get(name).copied()
}

/// Adds a label at a place.
pub fn add_label<'a>(
    labels: &mut IndexMap<&'a [u8], usize>,
    name: &'a [u8],
    at: usize,
) -> Result<(), ScriptFault>
    ensures ok { OnOk result ((q : List ℕ) → label_place labels.new q ≡ (if bytes_eq name.now q then Some at else label_place labels.old q)) }
    ensures err { IfErr result (λ fault. fault ≡ ScriptFault.OutOfMemory) }
{
    labels.insert(name, at)?;
    Ok(())
}
