//! Texts and lines, compared.

ghost use Rattle.std.specs.Prelude.{◌≡◌, ◌↔◌, ◌++◌, ◌∷◌, IsTrue};
ghost use Rattle.std.specs.Option.{option_copied};
ghost use Rattle.sedck_text.specs.Bytes.{newline};
ghost use Rattle.sedck_flow.specs.Run.{after_end};
ghost use Rattle.sedck_model.specs.States.{lines_of};

/// Whether the lines are the same.
pub(crate) fn same_lines(one: &[&[u8]], other: &[&[u8]]) -> bool
    ensures { IsTrue result ↔ lines_of one.now ≡ lines_of other.now }
{
    one == other
}

/// Whether the text is a newline and the back.
fn is_behind_newline(text: &[u8], back: &[u8]) -> bool
    ensures { IsTrue result ↔ text.now ≡ newline ∷ back.now }
{
    if text.is_empty() {
        return false;
    }
    text[0] == b'\n' && &text[1..] == back
}

/// Whether the text is the front, a newline and the back.
pub(crate) fn is_joined(text: &[u8], front: &[u8], back: &[u8]) -> bool
    ensures { IsTrue result ↔ text.now ≡ front.now ++ newline ∷ back.now }
{
    match text.strip_prefix(front) {
        Some(rest) => is_behind_newline(rest, back),
        None => false,
    }
}

/// What is behind the first newline, if there is one.
pub(crate) fn behind_newline(text: &[u8]) -> Option<&[u8]>
    ensures { option_copied result ≡ after_end newline text.now }
{
    for (i, b) in text.iter().enumerate() {
        if *b == b'\n' {
            return Some(&text[i + 1..]);
        }
    }
    None
}
