//! The limit on the lengths of the spaces.

ghost use Rattle.std.specs.Prelude.{◌↔◌, ◌≡◌, IsTrue};
ghost use Rattle.sedck_commands.specs.Program.{HoldAppend};
ghost use Rattle.sedck_script.specs.View.{verb_of};
ghost use Rattle.sedck_cert.specs.Ranked.{Accepts};
ghost use Rattle.sedck_cert.specs.SpaceLimit.{AppendsToHold, IsSpaceLimit, IsSpaceLimitEverywhere};

use crate::bounding::first_growth;
use crate::certificate::Cert;
use crate::limits::Bound;
use sedck_script::{Script, Verb};

/// The limit on the lengths of the pattern space and of the hold space, in bytes, in any run of a script for which the certificate is
/// accepted: neither is ever longer than the input. It is there where `limit` has an answer and no command is `H`.
pub fn space_limit(script: &Script, cert: &Cert) -> Option<Bound>
    requires { Accepts script.now cert.now }
    ensures limit { IsSpaceLimit script.now cert.now result }
    ensures everywhere { IsSpaceLimitEverywhere script.now result }
{
    if first_growth(script, cert).is_some() || appends_to_hold(script) {
        return None;
    }
    Some(INPUT_SIZE)
}

/// The size of the input, with a newline for each line.
const INPUT_SIZE: Bound = Bound {
    per_byte: 1,
    per_line: 1,
    fixed: 0,
};

/// Whether some command is `H`.
fn appends_to_hold(script: &Script) -> bool
    ensures { IsTrue result ↔ AppendsToHold script.now }
{
    for command in script.commands() {
        if is_append(&command.verb) {
            return true;
        }
    }
    false
}

/// Whether the verb is `H`.
fn is_append(verb: &Verb) -> bool
    ensures { IsTrue result ↔ (verb_of verb.now ≡ HoldAppend) }
{
    matches!(verb, Verb::HoldAppend)
}
