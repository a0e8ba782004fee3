//! Expressions, each in one spelling: what has a meaning is escaped wherever it stands for itself, and each repetition has one
//! form. Bracket lists are as the script has them.

use crate::printed::Printed;
use crate::written::{Position, after, is_in_list};
use sedck_bre::Bre;
use std::slice::Iter;

/// What a program doesn't say of the expressions of a command, in order: their bracket lists, and of each `$` whether it stays without a
/// backslash.
#[derive(Drop)]
pub(crate) struct Written<'a> {
    pub(crate) lists: Iter<'a, u8>,
    pub(crate) dollars: Iter<'a, bool>,
}

/// Adds the expression, whose lists are the first ones of these.
pub(crate) fn push_tree(tree: &Bre, written: &mut Written, out: &mut Printed) {
    match tree {
        Bre::Byte(b'$') if written.dollars.next() == Some(&true) => out.push(b"$"),
        Bre::Byte(byte) => out.push_escaped(&[*byte], b".[\\*^$"),
        Bre::Any => out.push(b"."),
        Bre::Set(_) => push_list(&mut written.lists, out),
        Bre::Start => out.push(b"^"),
        Bre::End => {
            written.dollars.next();
            out.push(b"$");
        }
        Bre::Maybe(byte) => out.push(&[*byte]),
        Bre::Group(_, body) => {
            out.push(b"\\(");
            push_tree(body, written, out);
            out.push(b"\\)");
        }
        Bre::Ref(k) => {
            out.push(b"\\");
            out.push_number(u32::from(*k));
        }
        Bre::Seq(items) => {
            for item in items {
                push_tree(item, written, out);
            }
        }
        Bre::Repeat { body, least, most } => {
            push_tree(body, written, out);
            push_count(out, *least, *most);
        }
    }
}

/// Adds the next one of the lists. Where there is none nothing is added, and what is printed is another command.
fn push_list(lists: &mut Iter<u8>, out: &mut Printed) {
    let mut position = Position::Outside;
    for byte in lists {
        // The lists of each expression are on a line of their own.
        if *byte != b'\n' {
            out.push(&[*byte]);
        }
        let next = after(position, *byte);
        if is_in_list(position) && !is_in_list(next) {
            return;
        }
        position = next;
    }
}

/// Adds a sign of repetition. An upper bound is there where it isn't the lower one.
fn push_count(out: &mut Printed, least: u8, most: Option<u8>) {
    if least == 0 && most.is_none() {
        out.push(b"*");
        return;
    }
    out.push(b"\\{");
    out.push_number(u32::from(least));
    if most != Some(least) {
        out.push(b",");
        if let Some(most) = most {
            out.push_number(u32::from(most));
        }
    }
    out.push(b"\\}");
}
