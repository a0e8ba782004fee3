//! Whether two scripts are the same program: command by command, whatever their texts are.
ghost use Rattle.std.specs.Prelude.{◌≡◌, ◌↔◌, true, map};
ghost use Rattle.sedck_bre.specs.Tree.{trees};
ghost use Rattle.sedck_bre.specs.View.{tree, bytes_in};
ghost use Rattle.sedck_expressions.specs.Private.Sets.{AreWords};
ghost use Rattle.sedck_script.specs.View.{pattern_of, place_of, address_of, part_of, substitution_of, verb_of, command_of};

use sedck_bre::{Bre, ByteSet};
use sedck_script::{Address, Command, Part, Pattern, Place, Script, Substitution, Verb};

/// Whether both are the same program: the same commands with all that they take, and both quiet or neither.
pub fn same_program(one: &Script, other: &Script) -> bool
    ensures { (result ≡ true) ↔ (one.now ≡ other.now) }
{
    one.quiet() == other.quiet() && same_commands(one.commands(), other.commands())
}

/// Whether both are the same commands, one after another.
fn same_commands(one: &[Command], other: &[Command]) -> bool
    ensures { (result ≡ true) ↔ (map command_of one.now ≡ map command_of other.now) }
{
    let mut left = (one, other);
    'commands: while let ([first, more @ ..], [second, others @ ..]) = left {
        if !same_command(first, second) {
            return false;
        }
        left = (more, others);
    }
    left.0.is_empty() && left.1.is_empty()
}

/// Whether both are the same command, whatever their texts are.
pub(crate) fn same_command(one: &Command, other: &Command) -> bool
    ensures { (result ≡ true) ↔ (command_of one.now ≡ command_of other.now) }
{
    one.negated == other.negated
        && same_address(&one.address, &other.address)
        && same_verb(&one.verb, &other.verb)
}

fn same_address(one: &Address, other: &Address) -> bool
    ensures { (result ≡ true) ↔ (address_of one.now ≡ address_of other.now) }
{
    match (one, other) {
        (Address::None, Address::None) => true,
        (Address::One(one), Address::One(other)) => same_place(one, other),
        (Address::Two(one, to), Address::Two(other, end)) => {
            same_place(one, other) && same_place(to, end)
        }
        _ => false,
    }
}

fn same_place(one: &Place, other: &Place) -> bool
    ensures { (result ≡ true) ↔ (place_of one.now ≡ place_of other.now) }
{
    match (one, other) {
        (Place::Line(one), Place::Line(other)) => one == other,
        (Place::Last, Place::Last) => true,
        (Place::Context(one), Place::Context(other)) => same_pattern(one, other),
        _ => false,
    }
}

fn same_pattern(one: &Pattern, other: &Pattern) -> bool
    ensures { (result ≡ true) ↔ (pattern_of one.now ≡ pattern_of other.now) }
{
    match (one, other) {
        (Pattern::Previous, Pattern::Previous) => true,
        (Pattern::Expr(one), Pattern::Expr(other)) => same_tree(one.body(), other.body()),
        _ => false,
    }
}

fn same_verb(one: &Verb, other: &Verb) -> bool
    ensures { (result ≡ true) ↔ (verb_of one.now ≡ verb_of other.now) }
{
    match (one, other) {
        (Verb::Label(one), Verb::Label(other))
        | (Verb::Append(one), Verb::Append(other))
        | (Verb::Change(one), Verb::Change(other))
        | (Verb::Insert(one), Verb::Insert(other))
        | (Verb::Read(one), Verb::Read(other))
        | (Verb::Write(one), Verb::Write(other)) => one == other,
        (Verb::Branch(one), Verb::Branch(other))
        | (Verb::Test(one), Verb::Test(other))
        | (Verb::Block(one), Verb::Block(other)) => one == other,
        (Verb::Substitute(one), Verb::Substitute(other)) => same_substitution(one, other),
        (Verb::Transliterate(from, to), Verb::Transliterate(others, ends)) => {
            from.as_slice() == others.as_slice() && to.as_slice() == ends.as_slice()
        }
        (Verb::Delete, Verb::Delete)
        | (Verb::DeleteFirstLine, Verb::DeleteFirstLine)
        | (Verb::Get, Verb::Get)
        | (Verb::GetAppend, Verb::GetAppend)
        | (Verb::Hold, Verb::Hold)
        | (Verb::HoldAppend, Verb::HoldAppend)
        | (Verb::List, Verb::List)
        | (Verb::Next, Verb::Next)
        | (Verb::NextAppend, Verb::NextAppend)
        | (Verb::Print, Verb::Print)
        | (Verb::PrintFirstLine, Verb::PrintFirstLine)
        | (Verb::Quit, Verb::Quit)
        | (Verb::Exchange, Verb::Exchange)
        | (Verb::LineNumber, Verb::LineNumber) => true,
        _ => false,
    }
}

fn same_substitution(one: &Substitution, other: &Substitution) -> bool
    ensures { (result ≡ true) ↔ (substitution_of one.now ≡ substitution_of other.now) }
{
    one.global == other.global
        && one.print == other.print
        && one.nth == other.nth
        && one.file == other.file
        && same_pattern(&one.pattern, &other.pattern)
        && same_parts(&one.parts, &other.parts)
}

/// Whether both are the same parts, one after another.
fn same_parts(one: &[Part], other: &[Part]) -> bool
    ensures { (result ≡ true) ↔ (map part_of one.now ≡ map part_of other.now) }
{
    let mut rest = (one, other);
    'parts: while let ([first, more @ ..], [second, others @ ..]) = rest {
        if !same_part(first, second) {
            return false;
        }
        rest = (more, others);
    }
    rest.0.is_empty() && rest.1.is_empty()
}

fn same_part(one: &Part, other: &Part) -> bool
    ensures { (result ≡ true) ↔ (part_of one.now ≡ part_of other.now) }
{
    match (one, other) {
        (Part::Text(one), Part::Text(other)) => one == other,
        (Part::Group(one), Part::Group(other)) => one == other,
        (Part::Newline, Part::Newline) | (Part::Tab, Part::Tab) | (Part::Whole, Part::Whole) =>
            true,
        _ => false,
    }
}

/// Whether both are the same tree.
#[cycle(same)]
fn same_tree(one: &Bre, other: &Bre) -> bool
    ensures { (result ≡ true) ↔ (tree one.now ≡ tree other.now) }
{
    match (one, other) {
        (Bre::Any, Bre::Any) | (Bre::Start, Bre::Start) | (Bre::End, Bre::End) => true,
        (Bre::Byte(one), Bre::Byte(other))
        | (Bre::Maybe(one), Bre::Maybe(other))
        | (Bre::Ref(one), Bre::Ref(other)) => one == other,
        (Bre::Set(one), Bre::Set(other)) => same_set(*one, *other),
        (Bre::Group(k, one), Bre::Group(n, other)) => k == n && same_tree(one, other),
        (Bre::Seq(one), Bre::Seq(other)) => same_trees(one, other),
        (
            Bre::Repeat {
                body: one,
                least: a,
                most: b,
            },
            Bre::Repeat {
                body: other,
                least: c,
                most: d,
            },
        ) => a == c && b == d && same_tree(one, other),
        _ => false,
    }
}

/// Whether both are the same trees, one after another.
#[cycle(same)]
fn same_trees(one: &[Bre], other: &[Bre]) -> bool
    ensures { (result ≡ true) ↔ (trees (map tree one.now) ≡ trees (map tree other.now)) }
{
    let mut rest = other;
    for item in one {
        let Some((first, more)) = rest.split_first() else {
            return false;
        };
        if !same_tree(item, first) {
            return false;
        }
        rest = more;
    }
    matches!(rest, [])
}

/// Whether the sets have the same bytes.
fn same_set(one: ByteSet, other: ByteSet) -> bool
    ensures { (result ≡ true) ↔ (bytes_in one.0 ≡ bytes_in other.0) }
{
    words_of(one) == words_of(other)
}

/// The words of the set, of which the type says that there are four.
fn words_of(set: ByteSet) -> [u64; 4]
    ensures same { result ≡ set.0 }
    ensures words { AreWords result }
{
    let [first, second, third, last] = set.0;
    [first, second, third, last]
}
