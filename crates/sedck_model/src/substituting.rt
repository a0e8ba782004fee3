//! What a substitution may make of a text.

ghost use Rattle.std.specs.Prelude.{◌≡◌, ◌≤◌, ◌-◌, ℕ, ◌↔◌, IsTrue, IfOk, map, length, take};
ghost use Rattle.sedck_bre.specs.View.{tree};
ghost use Rattle.sedck_script.specs.View.{substitution_of, part_of};
ghost use Rattle.sedck_flow.specs.Substitutes.{Substitutes, part_text as text_of_part};
ghost use Rattle.sedck_model.specs.Spots.{groups_of};
ghost use Rattle.sedck_model.specs.Private.Replacing.{ReplacesIn, Replaces, ReplacesAt, Continues, occurrence, text_for};

use crate::candidates::candidates;
use crate::reaching::ends;
use crate::spending::{Budget, Undecided};
use crate::spots::Spot;
use sedck_bre::Bre;
use sedck_script::{Part, Script, Substitution};
use std::alloc::{AllocError, Global};

/// A substitution, and the expression that its matches are of.
#[derive(Clone, Copy)]
struct Replacing<'e, 's, 't> {
    expression: &'e Bre,
    substitution: &'s Substitution<'t>,
}

/// Whether the substitution may make the new text of the old one, by any choice of matches.
pub fn substitutes(
    script: &Script,
    substitution: &Substitution,
    old_text: &[u8],
    new_text: &[u8],
    budget: &mut Budget,
) -> Result<bool, Undecided>
    ensures decided { IfOk result (λ yes. IsTrue yes ↔ Substitutes script.now (substitution_of substitution.now) old_text.now new_text.now) }
    ensures used { result ≡ Err Undecided.OutOfBudget → budget.new.left ≡ 0 }
    ensures spent { budget.new.left ≤ budget.old.left }
{
    let expressions = candidates(budget.alloc, script, &substitution.pattern)?;
    for expression in &expressions {
        let replacing = Replacing {
            expression,
            substitution,
        };
        if replaces_in(replacing, old_text, new_text, budget)? {
            return Ok(true);
        }
    }
    Ok(false)
}

/// Whether behind a text with which both begin the old one begins with a match, and is replaced from it on by the new one.
fn replaces_in(
    replacing: Replacing,
    old_text: &[u8],
    new_text: &[u8],
    budget: &mut Budget,
) -> Result<bool, Undecided>
    ensures decided { IfOk result (λ yes. IsTrue yes ↔ ReplacesIn
        (tree replacing.entry.expression.now) (substitution_of replacing.entry.substitution.now) old_text.now new_text.now) }
    ensures used { result ≡ Err Undecided.OutOfBudget → budget.new.left ≡ 0 }
    ensures spent { budget.new.left ≤ budget.old.left }
{
    let shared = shared_length(old_text, new_text);
    for length in 0..shared + 1 {
        if replaces(replacing, &old_text[length..], &new_text[length..], budget)? {
            return Ok(true);
        }
    }
    Ok(false)
}

/// Whether the old text begins with a match, and is replaced from it on by the new one.
#[cycle(replacing)]
fn replaces(
    replacing: Replacing,
    old_text: &[u8],
    new_text: &[u8],
    budget: &mut Budget,
) -> Result<bool, Undecided>
    ensures decided { IfOk result (λ yes. IsTrue yes ↔ Replaces
        (tree replacing.entry.expression.now) (substitution_of replacing.entry.substitution.now) old_text.now new_text.now) }
    ensures used { result ≡ Err Undecided.OutOfBudget → budget.new.left ≡ 0 }
    ensures spent { budget.new.left ≤ budget.old.left }
{
    let spots = ends(replacing.expression, old_text, 0, budget)?;
    for spot in &spots {
        if replaces_at(replacing, old_text, new_text, spot, budget)? {
            return Ok(true);
        }
    }
    Ok(false)
}

/// Whether the same holds with the match that ends at this spot.
#[cycle(replacing)]
fn replaces_at(
    replacing: Replacing,
    old_text: &[u8],
    new_text: &[u8],
    spot: &Spot,
    budget: &mut Budget,
) -> Result<bool, Undecided>
    requires { spot.now.at ≤ length old_text.now }
    ensures decided { IfOk result (λ yes. IsTrue yes ↔ ReplacesAt
        (tree replacing.entry.expression.now) (substitution_of replacing.entry.substitution.now) old_text.now new_text.now spot.now) }
    ensures used { result ≡ Err Undecided.OutOfBudget → budget.new.left ≡ 0 }
    ensures spent { budget.new.left ≤ budget.old.left }
{
    let text = replacement_text(budget.alloc, &replacing.substitution.parts, old_text, spot)?;
    match new_text.strip_prefix(&text) {
        Some(rest) => continues(
            replacing,
            1usize.saturating_sub(spot.at),
            &old_text[spot.at..],
            rest,
            budget,
        ),
        None => Ok(false),
    }
}

/// Whether what is after a match stays, up to the end or to another match, with at least so many bytes before that one.
#[cycle(replacing)]
fn continues(
    replacing: Replacing,
    least: usize,
    old_text: &[u8],
    new_text: &[u8],
    budget: &mut Budget,
) -> Result<bool, Undecided>
    requires { least ≤ 1 }
    ensures decided { IfOk result (λ yes. IsTrue yes ↔ Continues
        (tree replacing.entry.expression.now) (substitution_of replacing.entry.substitution.now) least old_text.now new_text.now) }
    ensures used { result ≡ Err Undecided.OutOfBudget → budget.new.left ≡ 0 }
    ensures spent { budget.new.left ≤ budget.old.left }
{
    if old_text == new_text {
        return Ok(true);
    }
    if !replacing.substitution.global {
        return Ok(false);
    }
    let shared = shared_length(old_text, new_text);
    for length in least..shared + 1 {
        if replaces(replacing, &old_text[length..], &new_text[length..], budget)? {
            return Ok(true);
        }
    }
    Ok(false)
}

/// The length of the longest text with which both begin.
fn shared_length(one: &[u8], other: &[u8]) -> usize
    ensures one { result ≤ length one.now }
    ensures other { result ≤ length other.now }
    ensures shared { take result one.now ≡ take result other.now }
    ensures longest { (n : ℕ) → n ≤ length one.now → n ≤ length other.now → take n one.now ≡ take n other.now → n ≤ result }
{
    let shorter = one.len().min(other.len());
    for length in 0..shorter {
        if one[length] != other[length] {
            return length;
        }
    }
    shorter
}

/// What takes the place of the match that ends at the spot.
fn replacement_text(
    alloc: Global,
    parts: &[Part],
    text: &[u8],
    spot: &Spot,
) -> Result<Vec<u8>, AllocError>
    requires { spot.now.at ≤ length text.now }
    ensures { IfOk result (λ made. made.items ≡ text_for (map part_of parts.now) (take spot.now.at text.now) (groups_of text.now spot.now.groups)) }
{
    let mut made = Vec::new(alloc);
    for part in parts {
        made.extend_from_slice(part_text(*part, text, spot))?;
    }
    Ok(made)
}

/// The text of a part of a replacement.
fn part_text<'a>(part: Part<'a>, text: &'a [u8], spot: &Spot) -> &'a [u8]
    requires { spot.now.at ≤ length text.now }
    ensures { result.now ≡ text_of_part (occurrence (take spot.now.at text.entry.now) (groups_of text.entry.now spot.now.groups)) (part_of part.entry) }
{
    match part {
        Part::Text(bytes) => bytes,
        Part::Newline => b"\n",
        Part::Tab => b"\t",
        Part::Whole => &text[..spot.at],
        Part::Group(group) => spot.group_text(text, group),
    }
}
