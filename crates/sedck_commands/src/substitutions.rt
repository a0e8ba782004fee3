//! The verbs with delimited parts: `s` and `y`.

ghost use Rattle.std.specs.Prelude.{◌≡◌, ◌≢◌, ◌<◌, ◌-◌, ℕ, List, ◌∷◌, length, IsTrue, IfOk, IfErr};
ghost use Rattle.sedck_text.specs.Bytes.{ascii};
ghost use Rattle.sedck_commands.specs.Cuts.{is_delimiter};
ghost use Rattle.sedck_commands.specs.Program as clean;
ghost use Rattle.sedck_commands.specs.Items.{Known, VerbText};
ghost use Rattle.sedck_commands.specs.Faults.{IsOfText};
ghost use Rattle.sedck_text.specs.Cursors.{unread};
ghost use Rattle.sedck_commands.specs.Private.VerbReading.{AreLists, IsBracedAt};
ghost use Rattle.sedck_commands.specs.ReadItems.{IsJumpIn};
ghost use Rattle.sedck_commands.specs.ItemView.{written_verb};
ghost use Rattle.sedck_commands.specs.FirstFaults.{HasNoDelimiter, SubstitutionFault, TransliterationFault};

use crate::bytes::is_delimiter;
use crate::delimited::{read_first_list, read_list, read_pattern};
use crate::fault::ScriptFault;
use crate::flags::read_flags;
use crate::items::Written;
use crate::replacements::{greatest_group, literal_length, outside_of, read_replacement};
use crate::texts::end_of_command;
use crate::types::{Substitution, Verb};
use sedck_text::Cursor;
use std::alloc::Global;

/// The delimiter after a verb, and what follows it.
fn split_delimiter<'a>(opening: usize, text: Cursor<'a>) -> Result<(u8, Cursor<'a>), ScriptFault>
    ensures read { IfOk result (λ x. (unread text.entry ≡ x.0 ∷ unread x.1) × IsTrue (is_delimiter x.0)) }
    ensures same { IfOk result (λ x. x.1.whole ≡ text.entry.whole) }
    ensures first { IfErr result (λ fault. HasNoDelimiter (unread text.entry) × (fault ≡ ScriptFault.Unterminated opening)) }
{
    let unterminated = ScriptFault::Unterminated { place: opening };
    let Some((delimiter, behind)) = text.split_first() else {
        return Err(unterminated);
    };
    if !is_delimiter(delimiter) {
        return Err(unterminated);
    }
    Ok((delimiter, behind))
}

/// What a `s` takes, and the rest of the text from its end on.
pub fn read_substitution<'a>(
    alloc: Global,
    text: Cursor<'a>,
) -> Result<(Written<'a>, Cursor<'a>), ScriptFault>
    requires { 0 < text.at }
    ensures read { IfOk result (λ x. VerbText (ascii "s" ∷ unread text.entry) (written_verb x.0) (unread x.1)) }
    ensures same { IfOk result (λ x. x.1.whole ≡ text.entry.whole) }
    ensures no_label { IfOk result (λ x. (name : List ℕ) → written_verb x.0 ≢ Known (clean.Label name)) }
    ensures first { IfErr result (λ fault. IsOfText fault → SubstitutionFault (length text.entry.whole.now) (text.entry.at - 1) (unread text.entry) fault) }
    ensures brace { IfOk result (λ x. IsBracedAt x.1.at x.0) }
    ensures jump { IfOk result (λ x. IsJumpIn (length text.entry.whole.now) (unread text.entry) x.0) }
{
    let opening = text.offset() - 1;
    let (delimiter, opened) = split_delimiter(opening, text)?;
    let (pattern, behind) = read_pattern(alloc, opening, delimiter, opened)?;
    let greatest = greatest_group(&pattern);
    let (parts, after) = read_replacement(alloc, opening, delimiter, greatest, behind)?;
    let (seen, file, rest) = read_flags(after)?;
    let outside = outside_of(&pattern, &parts);
    let literal = literal_length(&parts);
    let substitution = Substitution {
        pattern,
        parts,
        global: seen.global,
        print: seen.print,
        nth: seen.nth,
        file,
        outside,
        literal,
    };
    Ok((Written::Known(Verb::Substitute(substitution)), rest))
}

/// The two lists of a `y`, which are equally long, and what follows them.
fn read_lists<'a>(
    alloc: Global,
    opening: usize,
    delimiter: u8,
    text: Cursor<'a>,
) -> Result<(Vec<u8>, Vec<u8>, Cursor<'a>), ScriptFault>
    requires delimiter { IsTrue (is_delimiter delimiter) }
    ensures read { IfOk result (λ x. AreLists delimiter (unread text.entry) x.0.items x.1.items (unread x.2)) }
    ensures same { IfOk result (λ x. x.2.whole ≡ text.entry.whole) }
    ensures first { IfErr result (λ fault. IsOfText fault → (begins : List ℕ) → begins ≡ delimiter ∷ unread text.entry
        → TransliterationFault (length text.entry.whole.now) opening begins fault) }
{
    let (from, behind) = read_first_list(alloc, opening, delimiter, text)?;
    let (to, rest) = read_list(alloc, opening, delimiter, behind)?;
    if from.len() != to.len() {
        return Err(ScriptFault::BadTransliteration { place: opening });
    }
    Ok((from, to, rest))
}

/// What a `y` takes, and the rest of the text from its end on.
pub fn read_transliteration<'a>(
    alloc: Global,
    text: Cursor<'a>,
) -> Result<(Written<'a>, Cursor<'a>), ScriptFault>
    requires { 0 < text.at }
    ensures read { IfOk result (λ x. VerbText (ascii "y" ∷ unread text.entry) (written_verb x.0) (unread x.1)) }
    ensures same { IfOk result (λ x. x.1.whole ≡ text.entry.whole) }
    ensures no_label { IfOk result (λ x. (name : List ℕ) → written_verb x.0 ≢ Known (clean.Label name)) }
    ensures first { IfErr result (λ fault. IsOfText fault
        → TransliterationFault (length text.entry.whole.now) (text.entry.at - 1) (unread text.entry) fault) }
    ensures brace { IfOk result (λ x. IsBracedAt x.1.at x.0) }
    ensures jump { IfOk result (λ x. IsJumpIn (length text.entry.whole.now) (unread text.entry) x.0) }
{
    let opening = text.offset() - 1;
    let (delimiter, opened) = split_delimiter(opening, text)?;
    let (from, to, after) = read_lists(alloc, opening, delimiter, opened)?;
    let rest = end_of_command(after)?;
    Ok((Written::Known(Verb::Transliterate(from, to)), rest))
}
