//! The match that sed takes: the leftmost one, and of these the longest.

use sedck_bre::Bre;
use sedck_model::{Budget, Span, Spot, Undecided, ends};

/// Where an expression is held to: the start of a text, its end, both or neither.
#[derive(Clone, Copy)]
pub(crate) struct Anchors {
    start: bool,
    end: bool,
}

/// A match in a text, from its first byte to the spot.
#[derive(Clone, Copy)]
pub(crate) struct Found {
    pub start: usize,
    pub spot: Spot,
}

/// The anchors at both ends of the expression; none where it has others, or what seds read in more than one way.
pub(crate) fn anchors_of(expression: &Bre) -> Option<Anchors> {
    let Bre::Seq(items) = expression else {
        return None;
    };
    if has_split_dollar(items) {
        return None;
    }
    let last = items.len().saturating_sub(1);
    let mut anchors = Anchors {
        start: false,
        end: false,
    };
    for (index, item) in items.iter().enumerate() {
        match item {
            Bre::Start if index == 0 => anchors.start = true,
            Bre::End if index == last => anchors.end = true,
            _ => if !is_plain(item) {
                return None;
            },
        }
    }
    Some(anchors)
}

/// Whether the item has no anchor, and nothing that seds read in more than one way.
#[cycle(plain)]
fn is_plain(item: &Bre) -> bool {
    match item {
        Bre::Start | Bre::End | Bre::Maybe(_) => false,
        Bre::Group(_, body) => is_plain(body),
        // The matcher of glibc may have the text of such a group begin in an earlier round.
        Bre::Repeat { body, .. } => is_plain(body) && !repeats_group(body),
        Bre::Seq(items) => are_plain(items),
        // Above 127 a byte is a part of a character in UTF-8, where `xé*` matches an `x`.
        Bre::Byte(byte) => *byte < 128,
        Bre::Any | Bre::Set(_) | Bre::Ref(_) => true,
    }
}

#[cycle(plain)]
fn are_plain(items: &[Bre]) -> bool {
    for item in items {
        if !is_plain(item) {
            return false;
        }
    }
    !has_split_dollar(items)
}

/// Whether a `$` is right before a `)` or a bar, where GNU sed takes it for an anchor.
fn has_split_dollar(items: &[Bre]) -> bool {
    let mut is_dollar = false;
    for item in items {
        if is_dollar && is_operator(item) {
            return true;
        }
        is_dollar = matches!(item, Bre::Byte(b'$'));
    }
    false
}

/// Whether the item is a `)` or a bar, or repeats one.
fn is_operator(item: &Bre) -> bool {
    match item {
        Bre::Repeat { body, .. } => is_bar(body),
        _ => is_bar(item),
    }
}

fn is_bar(item: &Bre) -> bool {
    matches!(item, Bre::Byte(b')' | b'|'))
}

/// Whether a group in the tree is repeated.
#[cycle(groups)]
fn repeats_group(tree: &Bre) -> bool {
    match tree {
        Bre::Group(_, body) => repeats_group(body),
        Bre::Repeat { body, .. } => is_group(body) || repeats_group(body),
        Bre::Seq(items) => one_repeats_group(items),
        _ => false,
    }
}

fn is_group(item: &Bre) -> bool {
    matches!(item, Bre::Group(_, _))
}

#[cycle(groups)]
fn one_repeats_group(items: &[Bre]) -> bool {
    for item in items {
        if repeats_group(item) {
            return true;
        }
    }
    false
}

/// The first match that begins at the offset or after it.
pub(crate) fn first_match(
    expression: &Bre,
    anchors: Anchors,
    text: &[u8],
    from: usize,
    budget: &mut Budget,
) -> Result<Option<Found>, Undecided> {
    for start in from..=text.len() {
        if anchors.start && start > 0 {
            break;
        }
        let spots = ends(expression, text, start, budget)?;
        if let Some(spot) = longest(&spots, text, anchors) {
            return Ok(Some(Found { start, spot }));
        }
    }
    Ok(None)
}

fn longest(spots: &[Spot], text: &[u8], anchors: Anchors) -> Option<Spot> {
    let mut best: Option<Spot> = None;
    for spot in spots {
        let is_allowed = !anchors.end || spot.at == text.len();
        if is_allowed && is_better(spot, &best) {
            best = Some(*spot);
        }
    }
    best
}

fn is_better(spot: &Spot, best: &Option<Spot>) -> bool {
    match best {
        Some(known) => is_longer(spot, known),
        None => true,
    }
}

/// Whether the match is longer, or as long with a longer text of the first group in which both differ.
fn is_longer(spot: &Spot, known: &Spot) -> bool {
    if spot.at != known.at {
        return spot.at > known.at;
    }
    for (own, other) in spot.groups.iter().zip(&known.groups) {
        let (length, known_length) = (length_of(*own), length_of(*other));
        if length != known_length {
            return length > known_length;
        }
    }
    false
}

fn length_of(span: Option<Span>) -> usize {
    match span {
        Some(span) => span.end.saturating_sub(span.start),
        None => 0,
    }
}
