//! What is said of expressions that matchers of real seds get wrong: they are refused by the faults of expressions, which other texts have, too.

use crate::spot::Spot;
use sedck_bre::ReFault;
use sedck_parts::Reading;

/// Whether the fault is one of an expression that matchers get wrong, at a reference or an anchor of it.
pub fn is_misjudged(fault: ReFault, spot: Spot) -> bool {
    match fault {
        ReFault::NothingToRepeat { .. } => spot.rest.starts_with(b"^")
            || spot.rest.starts_with(b"$"),
        ReFault::BadReference { .. } => match spot.rest.get(1) {
            Some(digit) => closes_group(spot, usize::from(digit.saturating_sub(b'0'))),
            None => false,
        },
        _ => false,
    }
}

/// Whether the group with this number is closed before the fault.
fn closes_group(spot: Spot, number: usize) -> bool {
    let mut reading = Reading::of_expression(spot.delimiter());
    let mut opened: usize = 0;
    let mut outside: usize = 0;
    for byte in spot.inside() {
        let before = reading.groups;
        reading = reading.after(*byte);
        if reading.groups > before {
            opened = opened.saturating_add(1);
            if opened == number {
                outside = before;
            }
        }
        if reading.groups < before && opened >= number && reading.groups == outside {
            return true;
        }
    }
    false
}

/// Why such an expression is refused.
pub fn misjudged_reason(fault: ReFault) -> &'static str {
    match fault {
        ReFault::BadReference { .. } => {
            "seds get this reference wrong, by a group that is repeated, has a reference in it, or may match nothing"
        }
        _ => "seds get this anchor wrong: its group is repeated, or the expression has a reference",
    }
}

/// What to write instead.
pub(crate) fn misjudged_hint(fault: ReFault) -> &'static str {
    match fault {
        ReFault::BadReference { .. } => {
            "repeat bytes and lists in place of groups, as `a*` for `\\(a\\)*`, or split the command in two; give a group a byte where it may match nothing"
        }
        _ =>
            "an anchor holds in one place: move it out of the group, as in `^\\(a\\)`, if that is meant; a literal one is written `\\^` or `\\$`",
    }
}
