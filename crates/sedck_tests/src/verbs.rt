//! Verbs with what they take, and which scripts are quiet.
use crate::texts::{require_bytes, script_of};
use sedck_script::{Part, Substitution, Verb};
use std::alloc::Global;
use std::process::Abort;

fn letter_of(verb: &Verb) -> u8 {
    match verb {
        Verb::Label(_) => b':',
        Verb::Branch(_) => b'b',
        Verb::Test(_) => b't',
        Verb::Block(_) => b'{',
        Verb::Append(_) => b'a',
        Verb::Change(_) => b'c',
        Verb::Insert(_) => b'i',
        Verb::Read(_) => b'r',
        Verb::Write(_) => b'w',
        Verb::Next => b'n',
        Verb::NextAppend => b'N',
        Verb::Substitute(_) => b's',
        Verb::Transliterate(_, _) => b'y',
        Verb::Print => b'p',
        Verb::Quit => b'q',
        Verb::Exchange => b'x',
        _ => b'?',
    }
}

/// The text, the name or the first list that the verb takes.
fn taken_by<'a>(verb: &'a Verb<'a>) -> &'a [u8] {
    match verb {
        Verb::Append(text) | Verb::Change(text) | Verb::Insert(text) => *text,
        Verb::Label(name) | Verb::Read(name) | Verb::Write(name) => *name,
        Verb::Transliterate(from, _) => from,
        _ => b"",
    }
}

/// Where the verb leads to.
fn end_of(verb: &Verb) -> usize {
    match verb {
        Verb::Branch(at) | Verb::Test(at) | Verb::Block(at) => *at,
        _ => 0,
    }
}

fn put(rt: &impl Abort, out: &mut Vec<u8>, text: &[u8]) {
    out.extend_from_slice(text).expect(rt, "memory");
}

/// Puts the text between brackets.
fn put_text(rt: &impl Abort, out: &mut Vec<u8>, text: &[u8]) {
    put(rt, out, b"[");
    put(rt, out, text);
    put(rt, out, b"]");
}

fn put_number(rt: &impl Abort, alloc: Global, out: &mut Vec<u8>, number: usize) {
    let text = format!(in alloc; "{number}").expect(rt, "memory");
    put(rt, out, text.as_bytes());
}

fn put_part(rt: &impl Abort, alloc: Global, out: &mut Vec<u8>, part: &Part) {
    match part {
        Part::Text(text) => put_text(rt, out, *text),
        Part::Newline => put(rt, out, b"n"),
        Part::Tab => put(rt, out, b"t"),
        Part::Whole => put(rt, out, b"&"),
        Part::Group(k) => put_number(rt, alloc, out, usize::from(*k)),
    }
}

fn put_flags(rt: &impl Abort, alloc: Global, out: &mut Vec<u8>, substitution: &Substitution) {
    if substitution.global {
        put(rt, out, b" g");
    }
    if substitution.print {
        put(rt, out, b" p");
    }
    if let Some(nth) = substitution.nth {
        put(rt, out, b" ");
        put_number(rt, alloc, out, nth as usize);
    }
    if let Some(file) = substitution.file {
        put(rt, out, b" ");
        put_text(rt, out, file);
    }
}

/// Puts a line for the verb: its letter, what it takes, and where it leads to; then the parts and the flags of an `s`, or the second
/// list of a `y`.
fn put_verb(rt: &impl Abort, alloc: Global, out: &mut Vec<u8>, verb: &Verb) {
    put(rt, out, &[letter_of(verb)]);
    put_text(rt, out, taken_by(verb));
    put_number(rt, alloc, out, end_of(verb));
    match verb {
        Verb::Substitute(substitution) => {
            for part in &substitution.parts {
                put_part(rt, alloc, out, part);
            }
            put_flags(rt, alloc, out, substitution);
        }
        Verb::Transliterate(_, to) => put_text(rt, out, to),
        _ => {}
    }
    put(rt, out, b"\n");
}

/// A script, and what it is read as.
static SCRIPTS: [(&'static str, &'static str); 65] = [
    ("a hello", "a[hello]0\n"),
    ("a\\hello", "a[hello]0\n"),
    ("a   x", "a[x]0\n"),
    ("i\\  x", "i[  x]0\n"),
    ("c\\\n", "c[]0\n"),
    ("a\\\nx\\\ny\nx", "a[x\\\ny]0\nx[]0\n"),
    ("c x\\", "c[x\\]0\n"),
    ("c x\\\\\np", "c[x\\\\]0\np[]0\n"),
    ("w f;p", "w[f;p]0\n"),
    ("r  a b \nq", "r[a b ]0\nq[]0\n"),
    (": _a.-9 ;p", ":[_a.-9]0\np[]0\n"),
    (":a #c", ":[a]0\n"),
    // the block leads after its end, the branch to its label
    (
        ":a;$!{N;ba};s/\\n/ /g",
        ":[a]0\n{[]4\nN[]0\nb[]0\ns[]0[ ] g\n",
    ),
    ("{p;b a\n};t;:a", "{[]3\np[]0\nb[]4\nt[]5\n:[a]0\n"),
    (" :a\n n \n\nb a", ":[a]0\nn[]0\nb[]0\n"),
    ("{ba};:a", "{[]2\nb[]2\n:[a]0\n"),
    ("b a #c\n:a", "b[]1\n:[a]0\n"),
    ("txp\nx\n:xp", "t[]2\nx[]0\n:[xp]0\n"),
    ("t a\t;:a", "t[]1\n:[a]0\n"),
    ("b", "b[]1\n"),
    ("b;p", "b[]2\np[]0\n"),
    ("{t}", "{[]2\nt[]2\n"),
    ("b  ", "b[]1\n"),
    // a comment after a branch without a label needs a `;` or a newline before it
    ("b;#c", "b[]1\n"),
    ("t\n#a", "t[]1\n"),
    (":a;t a\t# x", ":[a]0\nt[]0\n"),
    ("t\np", "t[]2\np[]0\n"),
    ("y/abc/\\n\\\\\\// ;p", "y[abc]0[\n\\/]\np[]0\n"),
    ("y///", "y[]0[]\n"),
    ("{yxa\\xxb\\\\x}", "{[]2\ny[ax]0[b\\]\n"),
    // bracket lists in the first list are closed; in the second one they need not be
    ("y,],[,#", "y[]]0[[]\n"),
    ("y/ab/[]/", "y[ab]0[[]]\n"),
    ("y/[a]/bcd/", "y[[a]]0[bcd]\n"),
    ("y/[]]/abc/", "y[[]]]0[abc]\n"),
    ("y/[^]]/abcd/", "y[[^]]]0[abcd]\n"),
    ("y/[[]]/abcd/", "y[[[]]]0[abcd]\n"),
    ("y/\\\\[]]/abcd/", "y[\\[]]]0[abcd]\n"),
    ("y,[\\,],abc,", "y[[,]]0[abc]\n"),
    // each part of a replacement; the last line has the expression that the empty one needs
    (
        "s,,x.\\n\\t&\\1\\&\\\\\\,y\\\n,\n/a/p",
        "s[]0[x.]nt&1[&][\\][,][y][\n]\np[]0\n",
    ),
    // flags
    ("s//x/\n/a/p", "s[]0[x]\np[]0\n"),
    ("s//x/p07gw out }\n/a/p", "s[]0[x] g p 7 [out }]\np[]0\n"),
    ("s//x/gp ;/a/p", "s[]0[x] g p\np[]0\n"),
    (
        "{s//x/4294967295}\n/a/p",
        "{[]2\ns[]0[x] 4294967295\np[]0\n",
    ),
    ("s//x/w f;p\n/a/p", "s[]0[x] [f;p]\np[]0\n"),
    // whole scripts, and those that are quiet
    ("", ""),
    ("#n", "quiet\n"),
    ("#n\np", "quiet\np[]0\n"),
    ("#np", ""),
    ("\n#n\np", "p[]0\n"),
    ("p;p\np", "p[]0\np[]0\np[]0\n"),
    (" { ; p ;\n} ;", "{[]2\np[]0\n"),
    ("r b\nr a\nr b", "r[b]0\nr[a]0\nr[b]0\n"),
    ("w b\nw a;p}\nw b", "w[b]0\nw[a;p}]0\nw[b]0\n"),
    ("s/x/y/w out\nw in", "s[]0[y] [out]\nw[in]0\n"),
    ("q\nr after", "q[]0\nr[after]0\n"),
    ("1!{w x y \n}", "{[]2\nw[x y ]0\n"),
    ("s//a/;/b/p", "s[]0[a]\np[]0\n"),
    ("# a\r\np", "p[]0\n"),
    ("# a\r", ""),
    ("p # b\r\nw f", "p[]0\nw[f]0\n"),
    ("#n\r\np", "p[]0\n"),
    ("sxa\\xbxyx", "s[]0[y]\n"),
    ("sx[a]xy\\xx", "s[]0[y][x]\n"),
    ("\\xa\\xbxp", "p[]0\n"),
    ("s,[\\,x],y,", "s[]0[y]\n"),
];

#[test]
fn verbs(rt: HostRuntime) {
    for (text, told) in &SCRIPTS {
        let text = text.as_bytes();
        let script = script_of(&rt, rt.alloc(), text);
        let mut out = Vec::new(rt.alloc());
        if script.quiet() {
            put(&rt, &mut out, b"quiet\n");
        }
        for command in script.commands() {
            put_verb(&rt, rt.alloc(), &mut out, &command.verb);
        }
        require_bytes(&rt, &out, told.as_bytes(), text);
    }
}
