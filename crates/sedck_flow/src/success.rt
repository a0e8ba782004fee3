//! The kind of the edge along which a command substitutes.

ghost use Rattle.std.specs.Prelude.{◌≡◌, ◌↔◌, ◌≤◌, IsTrue, MatchOption, map};
ghost use Rattle.sedck_commands.specs.Program.{literal_length};
ghost use Rattle.sedck_commands.specs.References.{KeepsGroups};
ghost use Rattle.sedck_script.specs.View.{part_of, substitution_of};
ghost use Rattle.sedck_flow.specs.Flow.{IsWholeAlone, HasKind};
ghost use Rattle.sedck_flow.specs.Private.Least.{IsFormed, IsLeastOfRests};

use crate::graph::Kind;
use sedck_script::{Part, Pattern, Script, Substitution};

/// Whether the replacement is `&` and nothing else.
fn is_whole_alone(parts: &[Part]) -> bool
    ensures { IsTrue result ↔ IsWholeAlone (map part_of parts.now) }
{
    matches!(parts, [Part::Whole])
}

/// The least rest of a match, or the cap where that is above it; nothing where the replacement doesn't keep groups.
fn least_rest(script: &Script, substitution: &Substitution) -> Option<u32>
    requires { IsFormed (substitution_of substitution.now).pattern }
    ensures { MatchOption result
        (¬ KeepsGroups (substitution_of substitution.now).pattern (substitution_of substitution.now).parts)
        (λ n. KeepsGroups (substitution_of substitution.now).pattern (substitution_of substitution.now).parts
        × IsLeastOfRests script.now (substitution_of substitution.now) n) }
{
    let least = substitution.outside?;
    match &substitution.pattern {
        Pattern::Previous => Some(script.shortest()),
        Pattern::Expr(_) => Some(least),
    }
}

/// The kind of the edge along which the command substitutes. A script and its substitutions know all that is asked, so
/// that the time is constant.
pub(crate) fn success_kind(script: &Script, substitution: &Substitution) -> Kind
    requires formed { IsFormed (substitution_of substitution.now).pattern }
    requires replacement { literal_length (substitution_of substitution.now).parts ≤ 1048576 }
    ensures { HasKind script.now (substitution_of substitution.now) result }
{
    if is_whole_alone(&substitution.parts) {
        return Kind::Keep;
    }
    let Some(rest) = least_rest(script, substitution) else {
        return Kind::Grow;
    };
    let rest = rest as usize;
    let length = substitution.literal;
    if length < rest {
        return Kind::Shorten;
    }
    if length == rest {
        return Kind::Keep;
    }
    Kind::Grow
}
