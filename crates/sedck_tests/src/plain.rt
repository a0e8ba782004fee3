//! Scripts in their plain spelling.

use crate::texts::require_bytes;
use sedck_plain::plain_text;
use std::alloc::Global;
use std::process::Abort;

/// A script, and its plain text.
static SCRIPTS: [(&'static str, &'static str); 41] = [
    ("", ""),
    ("#n", "#n\n"),
    ("p;p", "p\np\n"),
    ("# x\np # y", "p\n"),
    ("1,$ ! {p;n}", "1,$!{\n  p\n  n\n}\n"),
    ("{{}}\np", "{\n  {\n  }\n}\np\n"),
    (":a;$!{N;ba};s/\\n//", ":a\n$!{\n  N\n  b a\n}\ns/\\n//\n"),
    ("b;t", "b\nt\n"),
    ("a hello", "a\\\nhello\n"),
    ("i\\\n a\\\nb\np", "i\\\n a\\\nb\np\n"),
    ("a\\\n\np", "a\\\n\np\n"),
    ("p;a\\\nb\\", "p\na\\\nb\\"),
    ("w f\\", "w f\\"),
    ("s/a/b/w x\\\\\np", "s/a/b/w x\\\\\np\n"),
    ("s|a\\/b|c|pg2", "s,a/b,c,2gp\n"),
    ("s,a,b/c,", "s,a,b/c,\n"),
    ("s/a/b\\.c/", "s/a/b\\.c/\n"),
    ("s/a/\\./", "s/a/./\n"),
    ("s/a/\\n\\t&\\\n\\\\\\&/", "s/a/\\n\\t&\\\n\\\\\\&/\n"),
    ("sx[a]xy\\xx", "sx[a]xy\\xx\n"),
    ("\\,a/,p;\\,a,p", "\\,a/,p\n/a/p\n"),
    ("y|/\\\\\\n|,ab|", "y:/\\\\\\n:,ab:\n"),
    (
        "s/a\\{0,\\}b\\{2,2\\}c\\{1,\\}d\\{0,1\\}//",
        "s/a*b\\{2\\}c\\{1,\\}d\\{0,1\\}//\n",
    ),
    (
        "s/^*[[:digit:]]\\t$x\\$$//",
        "s/^\\*[[:digit:]]\t\\$x\\$$//\n",
    ),
    ("s/\\(^*a\\)b*//", "s/\\(^\\*a\\)b*//\n"),
    ("s/[]a-c0123\\\\^[-]//", "s/[]a-c0123\\\\^[-]//\n"),
    ("s/[[:punct:][:space:]x]//", "s/[[:punct:][:space:]x]//\n"),
    ("s/[^[:print:]]//", "s/[^[:print:]]//\n"),
    ("s/[[:cntrl:]]//", "s/[[:cntrl:]]//\n"),
    (
        "s/[[.^.]]//;s/[[.^.]-]//;s/[^-^]//",
        "s/[[.^.]]//\ns/[[.^.]-]//\ns/[^-^]//\n",
    ),
    (
        "s/[a[:alnum:]_]//;s/[a-zA-Z0-9]//",
        "s/[a[:alnum:]_]//\ns/[a-zA-Z0-9]//\n",
    ),
    ("s/[]-]//", "s/[]-]//\n"),
    (
        "s/[[:blank:]-]//;s/[][:blank:]-]//",
        "s/[[:blank:]-]//\ns/[][:blank:]-]//\n",
    ),
    ("s/[[[:alpha:]]//", "s/[[[:alpha:]]//\n"),
    ("s/[^]ba[]//;s/[^][\\]//", "s/[^]ba[]//\ns/[^][\\]//\n"),
    ("s/a/\\/x\\//", "s,a,\\/x\\/,\n"),
    ("//p;s/a/b/", "//p\ns/a/b/\n"),
    // Lists with the same bytes and other characters, and a list in a comment.
    ("s/[é£]/1/g;s/[©ã]/2/g", "s/[é£]/1/g\ns/[©ã]/2/g\n"),
    ("# [[:alpha:]]\ns/[a-zA-Z]/y/", "s/[a-zA-Z]/y/\n"),
    (
        "/[ab]/,\\%[b\\%a]%s,\\([a-b]\\)*[ \\t\\,]\\{2\\},[x],",
        "/[ab]/,/[b%a]/s/\\([a-b]\\)*[ \\t,]\\{2\\}/[x]/\n",
    ),
    ("s^[/,:|#%@!~=_;\"]^x^", "s$[/,:|#%@!~=_;\"]$x$\n"),
];

fn plain_of(rt: &impl Abort, alloc: Global, text: &[u8]) -> Vec<u8> {
    plain_text(alloc, text).ok().expect(rt, "a plain text")
}

#[test]
fn plain_texts(rt: HostRuntime) {
    for (text, plain) in &SCRIPTS {
        let text = text.as_bytes();
        let found = plain_of(&rt, rt.alloc(), text);
        require_bytes(&rt, &found, plain.as_bytes(), text);
        let again = plain_of(&rt, rt.alloc(), &found);
        require_bytes(&rt, &again, plain.as_bytes(), text);
    }
}
