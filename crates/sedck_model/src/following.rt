//! Where trees lead from a list of spots.

ghost use Rattle.std.specs.Prelude.{◌≡◌, ◌≤◌, IfOk, Option};
ghost use Rattle.sedck_bre.specs.Tree.{Group, Repeat};
ghost use Rattle.sedck_bre.specs.View.{tree};
ghost use Rattle.sedck_expressions.specs.Private.Sequence.{sequence};
ghost use Rattle.sedck_model.specs.Spots.{Leads};
ghost use Rattle.sedck_model.specs.Private.Lists.{AreLed, AreWithin};
ghost use Rattle.sedck_model.specs.Private.Relations.{Steps, UpTo, Many};

use crate::adding::{add_all, without};
use crate::groups::{add_closed, entered};
use crate::single::pass;
use crate::spending::{Budget, Undecided};
use crate::spots::Spot;
use sedck_bre::Bre;

/// How often something is repeated.
#[derive(Clone, Copy)]
struct Times {
    least: u8,
    /// There is no bound where it is `None`.
    most: Option<u8>,
}

/// Where the tree leads from the spots. Each call spends one of the budget, unless there is no spot: so the budget bounds the work.
#[cycle(following)]
pub(crate) fn follow(
    expression: &Bre,
    text: &[u8],
    from: &[Spot],
    budget: &mut Budget,
) -> Result<Vec<Spot>, Undecided>
    requires { AreWithin text.now from.now }
    ensures led { IfOk result (λ spots. AreLed (Leads (tree expression.now)) text.now from.now spots.items) }
    ensures within { IfOk result (λ spots. AreWithin text.now spots.items) }
    ensures used { result ≡ Err Undecided.OutOfBudget → budget.new.left ≡ 0 }
    ensures spent { budget.new.left ≤ budget.old.left }
{
    if from.is_empty() {
        return Ok(Vec::new(budget.alloc));
    }
    budget.spend()?;
    match expression {
        Bre::Start | Bre::End => Ok(Vec::from_slice(budget.alloc, from)?),
        Bre::Byte(_) | Bre::Any | Bre::Set(_) | Bre::Ref(_) => {
            pass(expression, text, from, budget)
        }
        Bre::Maybe(_) => {
            let mut spots = Vec::from_slice(budget.alloc, from)?;
            let passed = pass(expression, text, from, budget)?;
            add_all(&mut spots, &passed, budget)?;
            Ok(spots)
        }
        Bre::Group(group, body) => follow_group(*group, body, text, from, budget),
        Bre::Seq(items) => follow_all(items, text, from, budget),
        Bre::Repeat { body, least, most } => {
            let times = Times {
                least: *least,
                most: *most,
            };
            follow_repeat(body, times, text, from, budget)
        }
    }
}

/// Where the items lead, one after another.
#[cycle(following)]
fn follow_all(
    items: &[Bre],
    text: &[u8],
    from: &[Spot],
    budget: &mut Budget,
) -> Result<Vec<Spot>, Undecided>
    requires { AreWithin text.now from.now }
    ensures led { IfOk result (λ spots. AreLed (Leads (sequence items.now)) text.now from.now spots.items) }
    ensures within { IfOk result (λ spots. AreWithin text.now spots.items) }
    ensures used { result ≡ Err Undecided.OutOfBudget → budget.new.left ≡ 0 }
    ensures spent { budget.new.left ≤ budget.old.left }
{
    let mut spots = Vec::from_slice(budget.alloc, from)?;
    for item in items {
        spots = follow(item, text, &spots, budget)?;
    }
    Ok(spots)
}

/// Where the group leads. Each spot is followed alone, since the text of the group begins there.
#[cycle(following)]
fn follow_group(
    group: u8,
    body: &Bre,
    text: &[u8],
    from: &[Spot],
    budget: &mut Budget,
) -> Result<Vec<Spot>, Undecided>
    requires { AreWithin text.now from.now }
    ensures led { IfOk result (λ spots. AreLed (Leads (Group group (tree body.now))) text.now from.now spots.items) }
    ensures within { IfOk result (λ spots. AreWithin text.now spots.items) }
    ensures used { result ≡ Err Undecided.OutOfBudget → budget.new.left ≡ 0 }
    ensures spent { budget.new.left ≤ budget.old.left }
{
    let mut spots = Vec::new(budget.alloc);
    for spot in from {
        let starts = [*spot, entered(body, spot)];
        let ends = follow(body, text, &starts, budget)?;
        add_closed(&mut spots, group, spot, &ends, budget)?;
    }
    Ok(spots)
}

/// Where the body leads, repeated as often as the bounds allow.
#[cycle(following)]
fn follow_repeat(
    body: &Bre,
    times: Times,
    text: &[u8],
    from: &[Spot],
    budget: &mut Budget,
) -> Result<Vec<Spot>, Undecided>
    requires { AreWithin text.now from.now }
    ensures led { IfOk result (λ spots. AreLed (Leads (Repeat (tree body.now) times.least times.most)) text.now from.now spots.items) }
    ensures within { IfOk result (λ spots. AreWithin text.now spots.items) }
    ensures used { result ≡ Err Undecided.OutOfBudget → budget.new.left ≡ 0 }
    ensures spent { budget.new.left ≤ budget.old.left }
{
    let Times { least, most } = times;
    let spots = follow_times(body, least, text, from, budget)?;
    match most {
        None => follow_many(body, text, &spots, budget),
        Some(most) => {
            if most < least {
                Ok(Vec::new(budget.alloc))
            } else {
                follow_up_to(body, most - least, text, &spots, budget)
            }
        }
    }
}

/// Where the body leads, so many times.
#[cycle(following)]
fn follow_times(
    body: &Bre,
    times: u8,
    text: &[u8],
    from: &[Spot],
    budget: &mut Budget,
) -> Result<Vec<Spot>, Undecided>
    requires { AreWithin text.now from.now }
    ensures led { IfOk result (λ spots. AreLed (Steps (Leads (tree body.now)) times) text.now from.now spots.items) }
    ensures within { IfOk result (λ spots. AreWithin text.now spots.items) }
    ensures used { result ≡ Err Undecided.OutOfBudget → budget.new.left ≡ 0 }
    ensures spent { budget.new.left ≤ budget.old.left }
{
    let mut spots = Vec::from_slice(budget.alloc, from)?;
    for _round in 0..times {
        spots = follow(body, text, &spots, budget)?;
    }
    Ok(spots)
}

/// Where the body leads, at most so many times.
#[cycle(following)]
fn follow_up_to(
    body: &Bre,
    most: u8,
    text: &[u8],
    from: &[Spot],
    budget: &mut Budget,
) -> Result<Vec<Spot>, Undecided>
    requires { AreWithin text.now from.now }
    ensures led { IfOk result (λ spots. AreLed (UpTo (Leads (tree body.now)) most) text.now from.now spots.items) }
    ensures within { IfOk result (λ spots. AreWithin text.now spots.items) }
    ensures used { result ≡ Err Undecided.OutOfBudget → budget.new.left ≡ 0 }
    ensures spent { budget.new.left ≤ budget.old.left }
{
    let mut spots = Vec::from_slice(budget.alloc, from)?;
    let mut newest = Vec::from_slice(budget.alloc, from)?;
    for _round in 0..most {
        newest = follow(body, text, &newest, budget)?;
        add_all(&mut spots, &newest, budget)?;
    }
    Ok(spots)
}

/// Where the body leads, any number of times. What is new in one round is followed in the next one.
#[cycle(following)]
fn follow_many(
    body: &Bre,
    text: &[u8],
    from: &[Spot],
    budget: &mut Budget,
) -> Result<Vec<Spot>, Undecided>
    requires { AreWithin text.now from.now }
    ensures led { IfOk result (λ spots. AreLed (Many (Leads (tree body.now))) text.now from.now spots.items) }
    ensures within { IfOk result (λ spots. AreWithin text.now spots.items) }
    ensures used { result ≡ Err Undecided.OutOfBudget → budget.new.left ≡ 0 }
    ensures spent { budget.new.left ≤ budget.old.left }
{
    let mut spots = Vec::from_slice(budget.alloc, from)?;
    let mut newest = Vec::from_slice(budget.alloc, from)?;
    'rounds: while !newest.is_empty() {
        budget.spend()?;
        let after = follow(body, text, &newest, budget)?;
        newest = without(budget.alloc, &after, &spots)?;
        add_all(&mut spots, &newest, budget)?;
    }
    Ok(spots)
}
