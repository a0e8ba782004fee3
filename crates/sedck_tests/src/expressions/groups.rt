//! Which groups are items of an expression, and the least length of a match outside of them.

ghost use Rattle.std.specs.Prelude.{◌≡◌, ◌≤◌, ◌^◌};
ghost use Rattle.sedck_bre.specs.Rests.{NamesTopGroups};

use crate::texts::{expression_of, require};
use sedck_bre::Expr;

/// No group: none of an expression is named.
fn no_group(_expression: &Expr) -> u16
    ensures { NamesTopGroups _expression.now result }
{
    0
}

/// The groups, and the one with this number, whose bit is given too, where it is an item of the expression.
fn with_group(expression: &Expr, groups: u16, k: u8, bit: u16) -> u16
    requires named { NamesTopGroups expression.now groups }
    requires first { 1 ≤ k }
    requires last { k ≤ 9 }
    requires bit { bit ≡ 2 ^ k }
    ensures { NamesTopGroups expression.now result }
{
    if expression.top_group(k) {
        groups | bit
    } else {
        groups
    }
}

/// The least length of a match outside of that of the first group, where that is an item.
fn least_outside(expression: &Expr) -> u32 {
    let groups = with_group(expression, no_group(expression), 1, 2);
    expression.least_outside(groups)
}

/// An expression, whether its first group is an item, and the least length outside of it; the last one is at the cap.
static OUTSIDE: [(&'static str, bool, u32); 5] = [
    ("\\(.*\\)  \\(.*\\)", true, 2),
    ("ab", false, 2),
    ("\\(ab\\)*c", false, 1),
    ("\\(\\(\\(a\\{255\\}\\)\\{255\\}\\)\\{255\\}\\)b", true, 1),
    (
        "\\(b\\)\\(\\(\\(a\\{255\\}\\)\\{255\\}\\)\\{255\\}\\)\\{2\\}",
        true,
        16777215,
    ),
];

#[test]
fn outside_of_the_first_group(rt: HostRuntime) {
    for (text, is_item, least) in &OUTSIDE {
        let text = text.as_bytes();
        let expression = expression_of(&rt, rt.alloc(), text);
        require(&rt, expression.top_group(1) == *is_item, text);
        require(&rt, least_outside(&expression) == *least, text);
        // no group has these numbers
        let beyond = expression.groups().saturating_add(1);
        let is_any = expression.top_group(0) || expression.top_group(beyond);
        require(&rt, !is_any, text);
    }
}
