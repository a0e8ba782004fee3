//! Whether a value that the file sets is put into a call. What is read of a call isn't trusted: a byte that no assumption gives counts as one of
//! such a value.

ghost use Rattle.std.specs.Prelude.{◌≡◌};
ghost use Rattle.std.specs.List.{list_any};
ghost use Rattle.sedck_calls_in_files.specs.Judged.{gives as gives_byte, is_assumed as is_assumed_byte, is_set as is_set_value, has_set as has_set_value, is_set_by as is_byte_set_by, has_set_from as has_set_byte_from, has_set_byte as has_set_byte_of, has_set_script as has_set_script_of, is_set_in as is_set_in_call};

use sedck_found::{Assumed, Followed, FoundCall, FoundScript, KnownValue};
use sedck_origin::{Origin, Traced};

/// Whether a value that the file sets is put into the call.
pub(crate) fn is_set_in(assumed: &[Assumed], found: &FoundCall) -> bool
    ensures { result ≡ is_set_in_call assumed.now found.now }
{
    has_set(&found.followed)
        || has_set_word(assumed, &found.words)
        || has_set_script(assumed, &found.script)
}

/// Whether the file sets one of the values.
fn has_set(followed: &[Followed]) -> bool
    ensures { result ≡ has_set_value followed.now }
{
    followed.iter().any(|one| is_set(one.value))
}

/// Whether the file sets the value.
fn is_set(value: KnownValue) -> bool
    ensures { result ≡ is_set_value value }
{
    !matches!(value, KnownValue::Given | KnownValue::Unset)
}

/// Whether a word has a byte of such a value.
fn has_set_word(assumed: &[Assumed], words: &[Traced]) -> bool
    ensures { result ≡ list_any (has_set_byte_of assumed.now) words.now }
{
    words.iter().any(|word| has_set_byte(assumed, word))
}

/// Whether the script has one.
fn has_set_script(assumed: &[Assumed], script: &FoundScript) -> bool
    ensures { result ≡ has_set_script_of assumed.now script.now }
{
    match script {
        FoundScript::Text { text, .. } => has_set_byte(assumed, text),
        _ => false,
    }
}

/// Whether the text has one.
fn has_set_byte(assumed: &[Assumed], text: &Traced) -> bool
    ensures { result ≡ has_set_byte_of assumed.now text.now }
{
    has_set_from(assumed, &text.origins, &text.bytes)
}

/// Whether one of the bytes with these origins is one.
fn has_set_from(assumed: &[Assumed], origins: &[Origin], bytes: &[u8]) -> bool
    ensures { result ≡ has_set_byte_from assumed.now origins.now bytes.now }
{
    for index in 0..origins.len() {
        if bytes.len() <= index {
            return false;
        }
        if is_set_by(assumed, origins[index], bytes[index]) {
            return true;
        }
    }
    false
}

/// Whether the byte with this origin is one.
fn is_set_by(assumed: &[Assumed], origin: Origin, byte: u8) -> bool
    ensures { result ≡ is_byte_set_by assumed.now origin byte }
{
    match origin {
        Origin::Value(_) => true,
        Origin::Given => !is_assumed(assumed, byte),
        _ => false,
    }
}

/// Whether a variable is assumed to have a value with the byte.
fn is_assumed(assumed: &[Assumed], byte: u8) -> bool
    ensures { result ≡ is_assumed_byte assumed.now byte }
{
    assumed.iter().any(|one| gives(one, byte))
}

/// Whether the variable is assumed to have a value with the byte.
fn gives(one: &Assumed, byte: u8) -> bool
    ensures { result ≡ gives_byte byte one.now }
{
    match one.value {
        Some(value) => value.contains(&byte),
        None => false,
    }
}
