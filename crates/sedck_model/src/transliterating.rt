//! What `y` may make of a text.

ghost use Rattle.std.specs.Prelude.{◌↔◌, ℕ, IsTrue};
ghost use Rattle.sedck_flow.specs.Run.{IsPartner, MayBecome, Transliterates};

/// Whether the one list has the byte where the other one has its partner.
fn is_partner(from: &[u8], to: &[u8], byte: u8, partner: u8) -> bool
    ensures { IsTrue result ↔ IsPartner from.now to.now byte partner }
{
    for i in 0..from.len().min(to.len()) {
        if from[i] == byte && to[i] == partner {
            return true;
        }
    }
    false
}

/// Whether the byte has some partner.
fn has_partner(from: &[u8], to: &[u8], byte: u8) -> bool
    ensures { IsTrue result ↔ ((partner : ℕ) × IsPartner from.now to.now byte partner) }
{
    for i in 0..from.len().min(to.len()) {
        if from[i] == byte {
            return true;
        }
    }
    false
}

fn may_become(from: &[u8], to: &[u8], old: u8, new: u8) -> bool
    ensures { IsTrue result ↔ MayBecome from.now to.now old new }
{
    is_partner(from, to, old, new) || old == new && !has_partner(from, to, old)
}

/// Whether each byte may become the byte of the new text at its place.
pub(crate) fn transliterates(from: &[u8], to: &[u8], old_text: &[u8], new_text: &[u8]) -> bool
    ensures { IsTrue result ↔ Transliterates from.now to.now old_text.now new_text.now }
{
    if old_text.len() != new_text.len() {
        return false;
    }
    for i in 0..old_text.len() {
        if !may_become(from, to, old_text[i], new_text[i]) {
            return false;
        }
    }
    true
}
