//! Which of the parts that matchers get wrong a tree has. They are all found in one pass over it, however many groups it has.

ghost use Rattle.std.specs.Prelude.{◌≡◌, map, nat_lt, sum_by, false};
ghost use Rattle.std.specs.List.{list_any};
ghost use Rattle.sedck_expressions.specs.Tree.{trees};
ghost use Rattle.sedck_expressions.specs.View.{tree};
ghost use Rattle.sedck_expressions.specs.Misjudged.{is_group, is_end, is_end_last, ends_in_anchor};
ghost use Rattle.sedck_expressions.specs.Private.Parts as spec;
ghost use Rattle.sedck_expressions.specs.Private.Parts.{bit, names, parts_of, own_reference, is_misjudged_by, references_by, misjudges_reference, misjudges_anchor};

use crate::tree::Bre;

/// What a tree is, and the references, groups and anchors in it. Bit k of a number stands for group k; the greatest that can be named is 9.
#[derive(Clone, Copy)]
pub(crate) struct Parts {
    /// Whether by its form alone it may match nothing.
    may_be_empty: bool,
    has_reference: bool,
    /// Whether a `^` or a `$` in a group may be an anchor.
    has_anchor: bool,
    repeats_anchor: bool,
    repeats_group: bool,
    /// The groups with a reference to them.
    referenced: u16,
    /// The groups with two references to them or more.
    twice: u16,
    /// The groups with a reference to them that is repeated by itself.
    repeated: u16,
    /// The groups that have a reference in them.
    with_reference: u16,
    /// The groups that may match nothing.
    of_nothing: u16,
}

/// The parts of what matches one byte.
const NONE: Parts = Parts {
    may_be_empty: false,
    has_reference: false,
    has_anchor: false,
    repeats_anchor: false,
    repeats_group: false,
    referenced: 0,
    twice: 0,
    repeated: 0,
    with_reference: 0,
    of_nothing: 0,
};

/// The bit of the group.
fn bit(k: u8) -> u16
    ensures { result ≡ bit k }
{
    if k < 16 { 1 << k } else { 0 }
}

/// Whether the bits name the group.
fn names(bits: u16, k: u8) -> bool
    ensures { result ≡ names bits k }
{
    k < 16 && (bits >> k) & 1 == 1
}

impl Parts {
    ghost use Rattle.sedck_expressions.specs.Private.Parts as spec;
    ghost use Rattle.std.specs.Prelude.{◌≡◌};

    pub(crate) fn has_reference(self) -> bool
        ensures { result ≡ self.has_reference }
    {
        self.has_reference
    }

    /// The parts of both trees, one after another.
    fn and_then(self, next: Parts) -> Parts
        ensures { result ≡ spec.and_then self next }
    {
        Parts {
            may_be_empty: self.may_be_empty && next.may_be_empty,
            has_reference: self.has_reference || next.has_reference,
            has_anchor: self.has_anchor || next.has_anchor,
            repeats_anchor: self.repeats_anchor || next.repeats_anchor,
            repeats_group: self.repeats_group || next.repeats_group,
            referenced: self.referenced | next.referenced,
            twice: self.twice | next.twice | (self.referenced & next.referenced),
            repeated: self.repeated | next.repeated,
            with_reference: self.with_reference | next.with_reference,
            of_nothing: self.of_nothing | next.of_nothing,
        }
    }

    /// The parts of both, where the next tree matches one byte.
    fn and_byte(self) -> Parts
        ensures { result ≡ spec.and_then self spec.none }
    {
        Parts {
            may_be_empty: false,
            ..self
        }
    }

    /// The parts of a group that has these in it.
    fn in_group(self, k: u8) -> Parts
        ensures { result ≡ spec.in_group k self }
    {
        let own = bit(k);
        let referring = if self.has_reference { own } else { 0 };
        let empty = if self.may_be_empty { own } else { 0 };
        Parts {
            with_reference: self.with_reference | referring,
            of_nothing: self.of_nothing | empty,
            ..self
        }
    }

    /// The parts of a repetition of what has these: the bits are those of the reference that it is, if it is one.
    fn repeated(self, reference: u16, group: bool, least: u8) -> Parts
        ensures { result ≡ spec.repeated reference group least self }
    {
        Parts {
            may_be_empty: least == 0 || self.may_be_empty,
            repeats_anchor: self.repeats_anchor || self.has_anchor,
            repeats_group: self.repeats_group || group,
            repeated: self.repeated | reference,
            ..self
        }
    }
}

fn is_group(expression: &Bre) -> bool
    ensures { result ≡ is_group (tree expression.now) }
{
    matches!(expression, Bre::Group(..))
}

/// The bit of the group that the tree is a reference to.
fn own_reference(expression: &Bre) -> u16
    ensures { result ≡ own_reference (tree expression.now) }
{
    match expression {
        Bre::Ref(k) => bit(*k),
        _ => 0,
    }
}

/// The parts of a tree.
#[cycle(parts)]
pub(crate) fn parts_of(expression: &Bre) -> Parts
    ensures { result ≡ parts_of (tree expression.now) }
{
    match expression {
        Bre::Byte(_) => NONE,
        Bre::Any => NONE,
        Bre::Set(_) => NONE,
        Bre::Start => Parts {
            may_be_empty: true,
            ..NONE
        },
        Bre::End => Parts {
            may_be_empty: true,
            ..NONE
        },
        Bre::Maybe(_) => Parts {
            may_be_empty: true,
            has_anchor: true,
            ..NONE
        },
        Bre::Ref(k) => Parts {
            may_be_empty: true,
            has_reference: true,
            referenced: bit(*k),
            ..NONE
        },
        Bre::Group(k, body) => parts_of(body).in_group(*k),
        Bre::Seq(items) => parts_of_all(items),
        // Most of what is repeated is a byte.
        Bre::Repeat { body, least, .. } if matches!(**body, Bre::Byte(_)) => Parts {
            may_be_empty: *least == 0,
            ..NONE
        },
        Bre::Repeat { body, least, .. } => {
            parts_of(body).repeated(own_reference(body), is_group(body), *least)
        }
    }
}

/// The parts of trees, one after another.
#[cycle(parts)]
fn parts_of_all(items: &[Bre]) -> Parts
    ensures { result ≡ spec.parts_after spec.empty (trees (map tree items.now)) }
{
    let mut all = Parts {
        may_be_empty: true,
        ..NONE
    };
    for item in items {
        all = match item {
            // Most of a long expression are bytes.
            Bre::Byte(_) => all.and_byte(),
            _ => all.and_then(parts_of(item)),
        };
    }
    all
}

/// Whether a reference to the group is misjudged by what the group is.
fn is_misjudged_group(parts: Parts, k: u8) -> bool
    ensures { result ≡ is_misjudged_by parts k }
{
    names(parts.referenced, k)
        && (names(parts.with_reference, k)
            || (names(parts.repeated, k) && names(parts.of_nothing, k)))
}

/// How many references there are to the group, if it may match nothing; 2 stands for more.
fn references_to_nothing(parts: Parts, k: u8) -> u8
    ensures { result ≡ references_by parts k }
{
    if names(parts.of_nothing, k) {
        return u8::from(names(parts.referenced, k)) + u8::from(names(parts.twice, k));
    }
    0
}

/// Whether a reference to one of the groups is misjudged by what the group is.
fn is_one_misjudged(parts: Parts, groups: &[u8]) -> bool
    ensures { result ≡ list_any (is_misjudged_by parts) groups.now }
{
    groups.iter().any(|k| is_misjudged_group(parts, *k))
}

/// Whether there are two or more to those of the groups that may match nothing.
fn are_two_to_nothing(parts: Parts, groups: &[u8]) -> bool
    ensures { result ≡ nat_lt 1 (sum_by (references_by parts) groups.now) }
{
    let mut total = 0;
    for k in groups {
        total = (total + references_to_nothing(parts, *k)).min(2);
    }
    total > 1
}

/// Whether the last item of the expression is a `$`.
fn ends_in_anchor(expression: &Bre) -> bool
    ensures { result ≡ ends_in_anchor (tree expression.now) }
{
    match expression {
        Bre::Seq(items) => is_end_last(items),
        _ => false,
    }
}

fn is_end_last(items: &[Bre]) -> bool
    ensures { result ≡ is_end_last false (trees (map tree items.now)) }
{
    let mut last = false;
    for item in items {
        last = is_end(item);
    }
    last
}

fn is_end(item: &Bre) -> bool
    ensures { result ≡ is_end (tree item.now) }
{
    matches!(item, Bre::End)
}

/// Whether an expression with these parts has a reference that matchers get wrong.
pub(crate) fn misjudges_reference(whole: &Bre, parts: Parts) -> bool
    ensures { result ≡ misjudges_reference (tree whole.now) parts }
{
    parts.has_reference
        && (parts.repeats_group
            || is_one_misjudged(parts, &[1, 2, 3, 4, 5, 6, 7, 8, 9])
            // Before a `$` two references to groups that may match nothing are misjudged.
            || (ends_in_anchor(whole) && are_two_to_nothing(parts, &[1, 2, 3, 4, 5, 6, 7, 8, 9])))
}

/// Whether an expression with these parts has an anchor that matchers get wrong.
pub(crate) fn misjudges_anchor(parts: Parts) -> bool
    ensures { result ≡ misjudges_anchor parts }
{
    parts.repeats_anchor || (parts.has_reference && parts.has_anchor)
}
