//! What is known of a command's expressions: whether they have a reference, repeat one or what may match nothing, or split a character,
//! and how many items their intervals write out.

ghost use Rattle.std.specs.Prelude.{◌≡◌, ◌+◌, ◌||◌, [], ◌∷◌, min, map, flat_map};
ghost use Rattle.sedck_bre.specs.Tree.{Byte, trees};
ghost use Rattle.sedck_bre.specs.Lengths.{cap};
ghost use Rattle.sedck_bre.specs.View.{tree};
ghost use Rattle.sedck_script.specs.Program.{place_patterns, address_patterns, verb_patterns, pattern_expressions};
ghost use Rattle.sedck_script.specs.View.{pattern_of, place_of, address_of, verb_of, command_of};
ghost use Rattle.sedck_script.specs.ByteSafe.{goes_on, bytes_due, due_behind, splits_character, one_splits, is_cut, command_expressions};
ghost use Rattle.sedck_expressions.specs.Misjudged.{may_be_empty, all_may_be_empty};
ghost use Rattle.sedck_advice.specs.Slow.{copies, is_reference, goes_round, repeats_badly, one_repeats_badly, written_out, all_written_out};
ghost use Rattle.sedck_advice.specs.References.{has_reference, one_has_reference};
ghost use Rattle.sedck_advice.specs.Private.Weights.{Weighs, WeighsAll};

use sedck_bre::Bre;
use sedck_script::{Address, Command, Pattern, Place, Verb};

/// Where numbers of items are capped.
const CAP: u32 = 16_777_215;

/// Whether the tree is a reference.
fn is_reference(expression: &Bre) -> bool
    ensures { result ≡ is_reference (tree expression.now) }
{
    matches!(expression, Bre::Ref(_))
}

/// Whether a reference is in the tree.
#[cycle(references)]
fn has_reference(expression: &Bre) -> bool
    ensures { result ≡ has_reference (tree expression.now) }
{
    match expression {
        Bre::Ref(_) => true,
        Bre::Group(_, body) => has_reference(body),
        Bre::Seq(items) => one_has_reference(items),
        Bre::Repeat { body, .. } => has_reference(body),
        _ => false,
    }
}

#[cycle(references)]
fn one_has_reference(items: &[Bre]) -> bool
    ensures { result ≡ one_has_reference (trees (map tree items.now)) }
{
    for item in items {
        if has_reference(item) {
            return true;
        }
    }
    false
}

/// Whether the tree may match nothing, by its form alone.
#[cycle(nothing)]
fn may_be_empty(expression: &Bre) -> bool
    ensures { result ≡ may_be_empty (tree expression.now) }
{
    match expression {
        Bre::Byte(_) | Bre::Any | Bre::Set(_) => false,
        Bre::Group(_, body) => may_be_empty(body),
        Bre::Seq(items) => all_may_be_empty(items),
        Bre::Repeat { body, least, .. } => *least == 0 || may_be_empty(body),
        _ => true,
    }
}

#[cycle(nothing)]
fn all_may_be_empty(items: &[Bre]) -> bool
    ensures { result ≡ all_may_be_empty (trees (map tree items.now)) }
{
    for item in items {
        if !may_be_empty(item) {
            return false;
        }
    }
    true
}

/// Whether a repetition with this upper limit may go on after its first round.
fn goes_round(most: Option<u8>) -> bool
    ensures { result ≡ goes_round most }
{
    match most {
        None => true,
        Some(most) => most > 1,
    }
}

/// Whether a reference is repeated by itself, or what may match nothing more than once.
#[cycle(repetitions)]
fn repeats_badly(expression: &Bre) -> bool
    ensures { result ≡ repeats_badly (tree expression.now) }
{
    match expression {
        Bre::Group(_, body) => repeats_badly(body),
        Bre::Seq(items) => one_repeats_badly(items),
        Bre::Repeat { body, most, .. } => {
            is_reference(body) || (goes_round(*most) && may_be_empty(body)) || repeats_badly(body)
        }
        _ => false,
    }
}

#[cycle(repetitions)]
fn one_repeats_badly(items: &[Bre]) -> bool
    ensures { result ≡ one_repeats_badly (trees (map tree items.now)) }
{
    for item in items {
        if repeats_badly(item) {
            return true;
        }
    }
    false
}

/// How often what is repeated is written out.
fn copies(least: u8, most: Option<u8>) -> u8
    ensures { result ≡ copies least most }
{
    most.unwrap_or(least).max(1)
}

/// The items in intervals once these are written out, at most the cap. What is inside is in an interval that is written out more
/// than once.
#[cycle(items)]
fn written_out(expression: &Bre, is_inside: bool) -> u32
    ensures { result ≡ min (written_out is_inside (tree expression.now)) cap }
{
    match expression {
        Bre::Group(_, body) => written_out(body, is_inside),
        Bre::Seq(items) => all_written_out(items, is_inside),
        Bre::Repeat { body, least, most } => {
            let times = copies(*least, *most);
            let items = written_out(body, is_inside || times > 1);
            items.saturating_mul(u32::from(times)).min(CAP)
        }
        _ => u32::from(is_inside),
    }
}

#[cycle(items)]
fn all_written_out(items: &[Bre], is_inside: bool) -> u32
    ensures { result ≡ min (all_written_out is_inside (trees (map tree items.now))) cap }
{
    let mut total: u32 = 0;
    for item in items {
        let own = written_out(item, is_inside);
        total = total.saturating_add(own).min(CAP);
    }
    total
}

/// Whether the byte is one of a character of UTF-8, but not its first one.
fn goes_on(byte: u8) -> bool
    ensures { result ≡ goes_on byte }
{
    byte > 127 && byte < 192
}

/// How many of these follow the byte in its character.
fn bytes_due(byte: u8) -> u8
    ensures { result ≡ bytes_due byte }
{
    match byte {
        0..=191 => 0,
        192..=223 => 1,
        224..=239 => 2,
        240..=255 => 3,
    }
}

/// How many are still due after a byte, where so many are before it.
fn due_behind_byte(byte: u8, due: u8) -> u8
    ensures { result ≡ due_behind (Byte byte) due }
{
    if goes_on(byte) {
        due.saturating_sub(1)
    } else {
        bytes_due(byte)
    }
}

/// How many are still due after an item.
fn due_behind(item: &Bre, due: u8) -> u8
    ensures { result ≡ due_behind (tree item.now) due }
{
    match item {
        Bre::Byte(byte) => due_behind_byte(*byte, due),
        _ => 0,
    }
}

/// Whether the byte isn't due, or is none of those that are.
fn is_cut_byte(byte: u8, due: u8) -> bool
    ensures { result ≡ is_cut (Byte byte) due }
{
    if goes_on(byte) { due == 0 } else { due > 0 }
}

/// Whether a part of a character is there without the others.
#[cycle(bytes)]
fn splits_character(expression: &Bre) -> bool
    ensures { result ≡ splits_character (tree expression.now) }
{
    match expression {
        Bre::Byte(byte) => *byte > 127,
        Bre::Group(_, body) => splits_character(body),
        Bre::Seq(items) => one_splits(items),
        Bre::Repeat { body, .. } => splits_character(body),
        _ => false,
    }
}

#[cycle(bytes)]
fn one_splits(items: &[Bre]) -> bool
    ensures { result ≡ one_splits (trees (map tree items.now)) 0 }
{
    let mut due = 0;
    for item in items {
        if is_cut(item, due) {
            return true;
        }
        due = due_behind(item, due);
    }
    due > 0
}

/// Whether what is due isn't there, or the item splits a character.
#[cycle(bytes)]
fn is_cut(item: &Bre, due: u8) -> bool
    ensures { result ≡ is_cut (tree item.now) due }
{
    match item {
        Bre::Byte(byte) => is_cut_byte(*byte, due),
        Bre::Group(_, body) => due > 0 || splits_character(body),
        Bre::Seq(items) => due > 0 || one_splits(items),
        Bre::Repeat { body, .. } => due > 0 || splits_character(body),
        _ => due > 0,
    }
}

/// What is known of some expressions.
#[derive(Clone, Copy)]
pub(crate) struct Weight {
    /// Whether one of them has a reference.
    pub reference: bool,
    /// Whether one repeats a reference by itself, or what may match nothing.
    pub repetition: bool,
    /// Whether one splits a character of UTF-8.
    pub byte: bool,
    /// The items that their intervals write out, at most the cap.
    pub items: u32,
}

impl Weight {
    /// That of no expression.
    const NOTHING: Weight = Weight {
        reference: false,
        repetition: false,
        byte: false,
        items: 0,
    };

    /// That of these expressions and the others.
    fn with(self, other: Weight) -> Weight
        ensures reference { result.reference ≡ (self.reference || other.reference) }
        ensures repetition { result.repetition ≡ (self.repetition || other.repetition) }
        ensures byte { result.byte ≡ (self.byte || other.byte) }
        ensures items { result.items ≡ min (min (self.items + other.items) 4294967295) cap }
    {
        Weight {
            reference: self.reference || other.reference,
            repetition: self.repetition || other.repetition,
            byte: self.byte || other.byte,
            items: self.items.saturating_add(other.items).min(CAP),
        }
    }
}

fn weight_of_tree(whole: &Bre) -> Weight
    ensures { Weighs (tree whole.now ∷ []) result }
{
    Weight {
        reference: has_reference(whole),
        repetition: repeats_badly(whole),
        byte: splits_character(whole),
        items: written_out(whole, false),
    }
}

fn weight_of_pattern(pattern: &Pattern) -> Weight
    ensures { Weighs (pattern_expressions (pattern_of pattern.now)) result }
{
    match pattern {
        Pattern::Previous => Weight::NOTHING,
        Pattern::Expr(expression) => weight_of_tree(expression.body()),
    }
}

pub(crate) fn weight_of_place(place: &Place) -> Weight
    ensures { Weighs (flat_map pattern_expressions (place_patterns (place_of place.now))) result }
{
    match place {
        Place::Line(_) => Weight::NOTHING,
        Place::Last => Weight::NOTHING,
        Place::Context(pattern) => weight_of_pattern(pattern),
    }
}

fn weight_of_address(address: &Address) -> Weight
    ensures { Weighs (flat_map pattern_expressions (address_patterns (address_of address.now))) result }
{
    match address {
        Address::None => Weight::NOTHING,
        Address::One(place) => weight_of_place(place),
        Address::Two(from, to) => weight_of_place(from).with(weight_of_place(to)),
    }
}

pub(crate) fn weight_of_verb(verb: &Verb) -> Weight
    ensures { Weighs (flat_map pattern_expressions (verb_patterns (verb_of verb.now))) result }
{
    if let Verb::Substitute(substitution) = verb {
        return weight_of_pattern(&substitution.pattern);
    }
    Weight::NOTHING
}

/// What is known of the command's expressions, those of its addresses too.
pub(crate) fn weight_of_command(command: &Command) -> Weight
    ensures { Weighs (command_expressions (command_of command.now)) result }
{
    weight_of_address(&command.address).with(weight_of_verb(&command.verb))
}

/// What is known of the commands' expressions.
pub(crate) fn weight_of(commands: &[Command]) -> Weight
    ensures { WeighsAll (map command_of commands.now) result }
{
    let mut weight = Weight::NOTHING;
    for command in commands {
        let own = weight_of_command(command);
        weight = weight.with(own);
    }
    weight
}
