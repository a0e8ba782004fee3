//! The members of bracket lists, byte by byte, and the bytes of escapes.
use crate::texts::require;
use sedck_bre::{Bre, ReFault, parse};
use std::alloc::Global;
use std::process::Abort;

/// Whether the byte is in a range.
fn is_in(ranges: &[(u8, u8)], byte: u8) -> bool {
    for (first, last) in ranges {
        if *first <= byte && byte <= *last {
            return true;
        }
    }
    false
}

/// Whether the item is matched by this byte.
fn has_member(item: &Bre, byte: u8) -> bool {
    match item {
        Bre::Byte(found) => *found == byte,
        Bre::Set(set) => (set.0[usize::from(byte / 64)] >> (byte % 64)) & 1 == 1,
        _ => false,
    }
}

/// Whether the item is matched by just the bytes of the ranges, or by just the others.
fn has_members(item: &Bre, ranges: &[(u8, u8)], complement: bool) -> bool {
    for byte in 0..=255u8 {
        if has_member(item, byte) != (is_in(ranges, byte) != complement) {
            return false;
        }
    }
    true
}

/// Whether the text is an expression of one item with these members.
fn is_item(alloc: Global, text: &[u8], ranges: &[(u8, u8)], complement: bool) -> bool {
    let Ok(expression) = parse(alloc, text) else {
        return false;
    };
    match expression.body() {
        Bre::Seq(items) if items.len() == 1 => has_members(&items[0], ranges, complement),
        _ => false,
    }
}

/// A bracket list, the ranges in it, and whether they are what it leaves out.
type Row = (&'static str, &'static [(u8, u8)], bool);

static CLASSES: [Row; 12] = [
    ("[[:upper:]]", &[(b'A', b'Z')], false),
    ("[[:lower:]]", &[(b'a', b'z')], false),
    ("[[:alpha:]]", &[(b'A', b'Z'), (b'a', b'z')], false),
    ("[[:digit:]]", &[(b'0', b'9')], false),
    (
        "[[:alnum:]]",
        &[(b'A', b'Z'), (b'a', b'z'), (b'0', b'9')],
        false,
    ),
    (
        "[[:xdigit:]]",
        &[(b'0', b'9'), (b'A', b'F'), (b'a', b'f')],
        false,
    ),
    ("[[:space:]]", &[(9, 13), (32, 32)], false),
    ("[[:blank:]]", &[(9, 9), (32, 32)], false),
    (
        "[[:punct:]]",
        &[(33, 47), (58, 64), (91, 96), (123, 126)],
        false,
    ),
    ("[[:graph:]]", &[(33, 126)], false),
    ("[[:print:]]", &[(32, 126)], false),
    ("[[:cntrl:]]", &[(0, 31), (127, 127)], false),
];

static LISTS: [Row; 34] = [
    ("[]]", &[(b']', b']')], false),
    ("[^]]", &[(b']', b']')], true),
    ("[]a]", &[(b']', b']'), (b'a', b'a')], false),
    ("[a-]", &[(b'a', b'a'), (b'-', b'-')], false),
    ("[-a]", &[(b'a', b'a'), (b'-', b'-')], false),
    ("[^-a]", &[(b'a', b'a'), (b'-', b'-')], true),
    ("[-]", &[(b'-', b'-')], false),
    ("[--/]", &[(b'-', b'/')], false),
    ("[+--]", &[(b'+', b'-')], false),
    ("[]-a]", &[(b']', b'a')], false),
    ("[a-c-]", &[(b'a', b'c'), (b'-', b'-')], false),
    ("[[.=.]]", &[(b'=', b'=')], false),
    ("[[=.=]]", &[(b'.', b'.')], false),
    ("[][]", &[(b'[', b'['), (b']', b']')], false),
    ("[\\f]", &[(b'\\', b'\\'), (b'f', b'f')], false),
    ("[[.].]]", &[(b']', b']')], false),
    ("[[.-.]-a]", &[(b'-', b'a')], false),
    ("[[=]=]]", &[(b']', b']')], false),
    ("[[=a=]b]", &[(b'a', b'b')], false),
    ("[[.a.]-c]", &[(b'a', b'c')], false),
    ("[a-[.c.]]", &[(b'a', b'c')], false),
    ("[\\n-a]", &[(10, b'a')], false),
    ("[\\\\-a]", &[(b'\\', b'a')], false),
    ("[\\n]", &[(10, 10)], false),
    ("[\\\\n]", &[(b'\\', b'\\'), (b'n', b'n')], false),
    ("[\\]", &[(b'\\', b'\\')], false),
    ("[\\t]", &[(b'\\', b'\\'), (b't', b't')], false),
    ("[[a]", &[(b'[', b'['), (b'a', b'a')], false),
    ("[a[]", &[(b'[', b'['), (b'a', b'a')], false),
    ("[\0]", &[(0, 0)], false),
    ("[^a]", &[(b'a', b'a')], true),
    ("[a-a]", &[(b'a', b'a')], false),
    ("[^^]", &[(b'^', b'^')], true),
    (
        "[:alpha:]",
        &[
            (b':', b':'),
            (b'a', b'a'),
            (b'l', b'l'),
            (b'p', b'p'),
            (b'h', b'h'),
        ],
        false,
    ),
];

fn have_members(rt: &impl Abort, alloc: Global, rows: &[Row]) {
    for (text, ranges, complement) in rows {
        let text = text.as_bytes();
        require(rt, is_item(alloc, text, ranges, *complement), text);
    }
}

#[test]
fn members(rt: HostRuntime) {
    have_members(&rt, rt.alloc(), &CLASSES);
    have_members(&rt, rt.alloc(), &LISTS);
}

/// Whether the text means the one byte.
fn means(rt: &impl Abort, alloc: Global, text: &[u8], byte: u8) {
    require(rt, is_item(alloc, text, &[(byte, byte)], false), text);
}

/// Bytes that mean themselves after a backslash.
static ESCAPED: &'static str = ".[\\*^$]/-\"&,;:!@#%=~_ ";

/// Bytes that have a meaning without one.
static SPECIAL: [u8; 5] = *b".[\\^$";

/// Escapes, and bytes without meaning.
#[test]
fn bytes(rt: HostRuntime) {
    for byte in ESCAPED.as_bytes() {
        means(&rt, rt.alloc(), &[b'\\', *byte], *byte);
    }
    means(&rt, rt.alloc(), b"\\n", 10);
    means(&rt, rt.alloc(), b"\\t", 9);
    for byte in 0..=255u8 {
        if !SPECIAL.contains(&byte) {
            means(&rt, rt.alloc(), &[byte], byte);
        }
    }
    // bytes that no word of a command line has
    let all = is_item(rt.alloc(), b"[\0-\xff]", &[(0, 255)], false);
    require(&rt, all, b"all bytes");
    let refused = parse(rt.alloc(), b"a\\\0");
    let is_bad = matches!(refused, Err(ReFault::BadEscape { place: 1 }));
    require(&rt, is_bad, b"an escaped NUL");
}
