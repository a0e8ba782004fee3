//! What to write in place of what is refused.

use crate::bytes::{
    DIGITS, after_any, before_any, begins_with_one, behind_command, byte_at, first_command,
    first_line, from_verb, has, is_among, until_any, without_blanks,
};
use crate::edges::{edge_hint, is_edge};
use crate::escapes::escape_hint;
use crate::misjudged::{is_misjudged, misjudged_hint};
use crate::multiples::{multiples_hint, number_in};
use crate::spot::{Spot, behind_part};
use sedck_bre::ReFault;
use sedck_parts::{Place, Reading};
use sedck_report::skipped;
use sedck_script::ScriptFault;

/// What to write instead, by the fault and by what is around it.
pub fn script_hint(fault: ScriptFault, spot: Spot) -> Option<&'static str> {
    if let Some(hint) = file_hint(spot.rest) {
        return Some(hint);
    }
    if spot.rest.starts_with(b"\\''") && spot.before.ends_with(b"'") {
        return Some("`'\\''` is how the shell writes one `'` in its quotes: write `'`");
    }
    match fault {
        ScriptFault::UnknownCommand { .. } => command_hint(spot),
        ScriptFault::BadAddress { .. } => address_hint(spot),
        ScriptFault::BadExpression { fault, .. } => expression_hint(fault, spot),
        ScriptFault::BadReplacement { .. } => Some(replacement_hint(spot.rest)),
        ScriptFault::BadFlag { .. } => Some(flag_hint(spot.rest)),
        ScriptFault::BadTransliteration { .. } => Some(list_hint(spot.rest)),
        ScriptFault::MissingText { .. } => Some(text_hint(spot.rest)),
        ScriptFault::BadLabel { .. } => Some(label_hint(spot.rest)),
        ScriptFault::ExtraText { .. } => Some(end_hint(spot)),
        ScriptFault::EscapedDelimiter { .. } => Some(delimiter_hint(spot.rest)),
        ScriptFault::TooLong { .. } | ScriptFault::TooManyCommands { .. } => {
            Some("split the script into several that run one after another")
        }
        ScriptFault::Unterminated { .. } => Some(
            "end each part with the delimiter, on the same line: `s/a/b/`, and write a newline as `\\n`; a newline, a backslash or a byte above 127 can't \
                be the delimiter",
        ),
        ScriptFault::MissingName { .. } => Some(
            "write the name after a blank; it goes on to the end of the line",
        ),
        ScriptFault::UnclosedBlock { .. } => Some(
            "write its `}` on a line of its own; after a file name or a text it would be part of that",
        ),
        ScriptFault::NoPreviousExpression { .. } => Some("write the expression"),
        _ => None,
    }
}

/// Where the file as a whole isn't what sed expects.
fn file_hint(rest: &[u8]) -> Option<&'static str> {
    if ends_in_return(rest) {
        return Some("the line ends in a carriage return: save the file with Unix line endings");
    }
    if rest.starts_with(b"\r") {
        return Some(
            "BusyBox ends a comment at a carriage return, and a terminal obeys it in a name: remove it, or save the file with Unix line endings",
        );
    }
    if rest.starts_with(BYTE_ORDER_MARK) {
        return Some("the file begins with a byte order mark: save it without one");
    }
    None
}

/// With what editors of other systems may begin a file.
pub(crate) const BYTE_ORDER_MARK: &[u8] = b"\xef\xbb\xbf";

/// Whether a carriage return ends the line here.
pub(crate) fn ends_in_return(rest: &[u8]) -> bool {
    rest.starts_with(b"\r") && byte_at(rest, 1) == b'\n'
}

fn command_hint(spot: Spot) -> Option<&'static str> {
    if spot.rest.starts_with(b"\\!") {
        return Some("`!` needs no backslash here");
    }
    match byte_at(spot.rest, 0) {
        b'~' => multiples_hint(spot.before, spot.behind()),
        b'$' if spot.follows("$") => Some(
            "in a makefile `$$` becomes one `$`: write one, or check the script that the shell passes on",
        ),
        b',' if spot.follows("!") => Some("a `!` follows the last address: write `/x/,5!p`"),
        b',' if has_no_address(spot) => Some("write an address before the comma, as in `1,5p`"),
        b'Q' => Some(quit_hint(spot)),
        b'T' if is_turned_test(spot) => Some("for `T end`, `b again` and `:end` write `t again`"),
        verb => verb_hint(verb),
    }
}

/// In place of `Q`, which may have an exit status.
fn quit_hint(spot: Spot) -> &'static str {
    let has_status = byte_at(without_blanks(spot.behind()), 0).is_ascii_digit();
    match (spot.follows("!"), has_no_address(spot)) {
        (true, _) if has_status =>
            "for `/x/!Q` write `/x/!{`, `:end`, `$d`, `N`, `s/.*\\n//`, `b end` and `}` on lines of their own, which print what `a` or `r` adds \
                before; the status is then 0, since no command of POSIX gives another one",
        (true, _) =>
            "for `/x/!Q` write `/x/!{`, `:end`, `$d`, `N`, `s/.*\\n//`, `b end` and `}` on lines of their own, which print what `a` or `r` adds \
                before",
        (_, true) if has_status =>
            "for `/x/Q` alone in a script write `/x/,$d`; for `Q` without an address, as in a block, write `:end`, `$d`, `N`, `s/.*\\n//` \
                and `b end` on lines of their own, which print what `a` or `r` adds before; the status is then 0, since no command of POSIX \
                gives another one",
        (_, true) =>
            "for `/x/Q` alone in a script write `/x/,$d`; for `Q` without an address, as in a block, write `:end`, `$d`, `N`, `s/.*\\n//` \
                and `b end` on lines of their own, which print what `a` or `r` adds before",
        _ if has_status =>
            "for `/x/Q` alone in a script write `/x/,$d`; no command of POSIX gives an exit status: look for the line outside the script, as with `grep`",
        _ => "for `/x/Q` alone in a script write `/x/,$d`",
    }
}

const OUTSIDE: &str =
    "this extension of GNU sed has no equivalent in POSIX: do it outside the script";

const LINES: &str =
    "`^` and `$` match only at the ends of the pattern space: match `\\n` instead, and write `[^\\n]` for `.` and `[^x\\n]` for `[^x]`, which match no \
        newline with `M`; where that is one line leave `M` out";

const QUOTES: &str = "quotes belong to the shell: leave them out of the script";

/// Whether the `T` and the `b` after it are one `t`: neither has an address, and the `T` leads right after the `b`.
fn is_turned_test(spot: Spot) -> bool {
    let branch = without_blanks(behind_command(spot.rest));
    let label = without_blanks(behind_command(branch));
    let wanted = without_blanks(skipped(first_command(spot.rest), 1));
    let is_behind = match label.strip_prefix(b":") {
        Some(name) => first_command(without_blanks(name)) == wanted,
        None => label.is_empty() && wanted.is_empty(),
    };
    has_no_address(spot) && branch.starts_with(b"b") && is_behind
}

/// Whether nothing is before the command in its line or block, or only another command.
fn has_no_address(spot: Spot) -> bool {
    spot.follows("{};\n")
}

/// By the byte in place of a verb.
fn verb_hint(verb: u8) -> Option<&'static str> {
    match verb {
        b'T' => Some(
            "for `T end` write `t go`, `b end` and `:go` on lines of their own; for `/x/T end` put the first two into a block, `/x/{` and `}`",
        ),
        b'z' => Some(
            "for `z` write `g` if no command uses the hold space; else write `s/.*//`, which sets the flag that `t` tests, is what `//` means \
                after it, and in UTF-8 stops at a byte that is no character",
        ),
        b'I' => Some(
            "for `/hello/I` write `/[hH][eE][lL][lL][oO]/`, if the expression has no reference; in UTF-8 `I` also takes U+0131 for an `i` and U+017F for \
                an `s`",
        ),
        b'M' => Some(LINES),
        b'e' => Some("POSIX sed can't run other programs: do it outside the script"),
        b'v' => Some("`v` requires a version of GNU sed: leave it out"),
        b'W' => Some(
            "for `W out` write `h`, `s/\\n.*//`, `w out` and `g`, if nothing needs the hold space; the `s` sets the flag that `t` tests, is what `//` \
                means after it, and in UTF-8 stops at a byte that is no character",
        ),
        b'F' | b'R' => Some(OUTSIDE),
        b'"' | b'\'' => Some(QUOTES),
        b',' => Some("a command has at most two addresses"),
        b'-' => Some("an option of sed is no part of a script: give it to sed itself"),
        b'\n' | b';' | b'}' => Some("a command is missing after the address"),
        _ => None,
    }
}

fn address_hint(spot: Spot) -> Option<&'static str> {
    match byte_at(spot.rest, 0) {
        b'0' => zero_hint(spot),
        b'1'..=b'9' => Some("a line number is at most 4,294,967,295"),
        b'+' => Some(following_hint(spot)),
        b'~' if follows_number(spot) => Some("for `5,~4` write `5,8`"),
        b'~' => Some(OUTSIDE),
        _ => Some("an address is a line number, `$`, or an expression between delimiters"),
    }
}

/// By what follows the `0`.
fn zero_hint(spot: Spot) -> Option<&'static str> {
    let rest = spot.rest;
    if let Some(behind) = rest.strip_prefix(b"0~") {
        return if spot.follows(",") {
            None
        } else {
            multiples_hint(b"0", behind)
        };
    }
    if let Some(behind) = behind_first_range(rest) {
        return Some(first_match_hint(behind));
    }
    if rest.starts_with(b"0r") {
        return Some(
            "`0r` is an extension of GNU sed: put the file before the output, as in `sed .. | cat FILE -`",
        );
    }
    Some("lines are counted from 1")
}

/// What follows `0,/x/`, also with another delimiter.
fn behind_first_range(rest: &[u8]) -> Option<&[u8]> {
    let comma = without_blanks(skipped(rest, 1));
    let end = without_blanks(comma.strip_prefix(b",")?);
    if let Some(part) = end.strip_prefix(b"/") {
        return Some(behind_part(part, b'/'));
    }
    let part = end.strip_prefix(b"\\")?;
    Some(behind_part(skipped(part, 1), byte_at(part, 0)))
}

/// By what follows `0,/x/`.
fn first_match_hint(behind: &[u8]) -> &'static str {
    match byte_at(from_verb(behind), 0) {
        b'd' =>
            "for `0,/x/d` alone in a script write `/x/!d`, `$d`, `N`, `s/.*\\n//`, `:rest`, `n` and `b rest` on lines of their own; \
                in UTF-8 the `s` stops at a byte that is no character",
        verb if is_among(verb, "spy=wairl") =>
            "for `0,/x/s/a/b/` alone in a script write `/x/{`, `s/a/b/`, `:rest`, `n`, `b rest`, `}` and once more `s/a/b/` on lines of their own, \
                and so for `p`",
        _ => "`1,/x/` is the same if the first line doesn't match",
    }
}

/// Whether a line number and a comma precede the fault.
fn follows_number(spot: Spot) -> bool {
    let start = spot.before.strip_suffix(b",").unwrap_or(&[]);
    before_any(start, DIGITS).len() < start.len()
}

/// By what is around the `+`.
fn following_hint(spot: Spot) -> &'static str {
    let behind = spot.behind();
    if follows_number(spot) {
        return "for `6,+2` write `6,8`";
    }
    if behind.starts_with(b"0") && behind.len() > 1 && !byte_at(behind, 1).is_ascii_digit() {
        return "for `/x/,+0` write `/x/`";
    }
    match byte_at(from_verb(behind), 0) {
        b'd' =>
            "for `/x/,+2d` alone in a script write `/x/{`, `$!N`, `$!N`, `d` and `}` on lines of their own",
        b'!' =>
            "for `/x/,+2!d` alone in a script write `/x/{`, `n`, `n`, `b`, `}` and `d` on lines of their own",
        _ =>
            "for `/x/,+2p` alone in a script write `/x/{`, `p`, `n`, `p`, `n`, `p` and `}` on lines of their own, for a command that neither deletes nor \
                reads a line; for `d` write `$!N` twice and one `d`",
    }
}

fn expression_hint(fault: ReFault, spot: Spot) -> Option<&'static str> {
    if is_misjudged(fault, spot) {
        return Some(misjudged_hint(fault));
    }
    match fault {
        ReFault::BadEscape { .. } => Some(escape_hint(spot)),
        ReFault::UnclosedBracket { .. } => Some(unclosed_hint(spot)),
        ReFault::BadBracket { .. } if is_edge(spot.rest) => Some(edge_hint(spot)),
        ReFault::BadBracket { .. } => Some(element_hint(spot.rest)),
        ReFault::BadInterval { .. } => Some(interval_hint(spot)),
        ReFault::NothingToRepeat { .. } => Some(
            "for a literal brace write `{`; else put what is to be repeated before it",
        ),
        ReFault::DoubleRepeat { .. } => Some(repeat_hint(spot)),
        ReFault::UnclosedGroup { .. } | ReFault::UnopenedGroup { .. } => {
            Some("a group is written `\\(` and `\\)`; literal parentheses are `(` and `)`")
        }
        ReFault::BadReference { .. } => Some(
            "a group is written `\\(` and `\\)`, and it is closed before a reference to it",
        ),
        _ => None,
    }
}

/// At a repetition of a repetition.
fn repeat_hint(spot: Spot) -> &'static str {
    if spot.follows("*") && spot.rest.starts_with(b"*") {
        return "one `*` is enough";
    }
    "a group may be repeated again, as in `\\(a\\{2\\}\\)*`"
}

/// Whether a bracket list that isn't closed has a `]`, and the beginning of a class or a symbol, which isn't closed either.
pub fn has_open_class(spot: Spot) -> bool {
    let list = skipped(spot.left(), 1);
    list.contains(&b']') && (has(list, "[.") || has(list, "[:") || has(list, "[="))
}

/// What begins a class or a symbol.
static CLASS_STARTS: &'static [&'static str] = &["[.", "[:", "[="];

/// Where a list isn't closed: nothing on its line ends it, the delimiter does, or it has the beginning of a class or a symbol.
fn unclosed_hint(spot: Spot) -> &'static str {
    if !first_line(spot.rest).contains(&b']') {
        return "a list ends with a `]`; for the bracket itself write `\\[`";
    }
    if has_open_class(spot) {
        return "in a bracket list `[.`, `[=` and `[:` begin a symbol or a class: put the `[` last, as in `[].*[]`";
    }
    "a delimiter in a bracket list ends the expression: use another one, as in `s,[/],x,` or `\\,[/],p`; in `[\\/]` some seds keep the backslash"
}

/// By an invalid element.
fn element_hint(rest: &[u8]) -> &'static str {
    if is_symbol_of_its_mark(rest) {
        return "write the byte itself: `[.]` for `[[...]]`, `[=]` for `[[===]]`";
    }
    if is_long_symbol(rest) {
        return "a symbol of a list is one byte: for `[[.space.]]` write `[ ]`, and write longer texts outside of a list";
    }
    if is_unknown_class(rest) {
        return "there is no such class: the classes are alnum, alpha, blank, cntrl, digit, graph, lower, print, punct, space, upper and xdigit";
    }
    if is_reversed(rest) {
        return "the ends of the range are the wrong way round: the one with the lower byte comes first, as in `[a-z]`";
    }
    if rest.starts_with(b"[]") || rest.starts_with(b"[^") || has_early_end(rest) {
        return EARLY;
    }
    "put a `-` first or last in its list; a class can't be the end of a range"
}

/// The names of classes, with what closes them.
static CLASSES: &'static [&'static str] = &[
    "alnum:]", "alpha:]", "blank:]", "cntrl:]", "digit:]", "graph:]", "lower:]", "print:]",
    "punct:]", "space:]", "upper:]", "xdigit:]",
];

/// Whether the element is a class with a name that no class has.
fn is_unknown_class(rest: &[u8]) -> bool {
    rest.starts_with(b"[:") && !begins_with_one(skipped(rest, 2), CLASSES)
}

/// Whether the element is a range of two bytes, of which the first is the greater one.
fn is_reversed(rest: &[u8]) -> bool {
    let end = skipped(rest, 2);
    let last = if end.starts_with(b"\\n") {
        b'\n'
    } else {
        byte_at(end, 0)
    };
    let is_range = byte_at(rest, 1) == b'-' && !end.is_empty();
    is_range && byte_at(rest, 0) > last && !begins_with_one(end, CLASS_STARTS)
}

/// Whether the element is `[.` or `[=`, the same byte twice, and a `]`.
fn is_symbol_of_its_mark(rest: &[u8]) -> bool {
    (rest.starts_with(b"[.") || rest.starts_with(b"[="))
        && byte_at(rest, 4) == b']'
        && byte_at(rest, 2) == byte_at(rest, 3)
}

/// Whether the element is a symbol or an equivalence class of several bytes.
fn is_long_symbol(rest: &[u8]) -> bool {
    let end = skipped(rest, 3);
    (rest.starts_with(b"[.") && !end.starts_with(b".]"))
        || (rest.starts_with(b"[=") && !end.starts_with(b"=]"))
}

const EARLY: &str =
    "BusyBox ends this list too early: put the `[`, or the range that ends in it, before the class, as in `[[[:alpha:]]`";

/// Whether a range that begins with a byte, an escape or a symbol ends in a `[` that BusyBox takes for the beginning of a list.
fn has_early_end(rest: &[u8]) -> bool {
    ends_in_bracket(rest, 1) || ends_in_bracket(rest, 2) || ends_in_bracket(rest, 5)
}

/// The same of a range whose hyphen is at this offset.
fn ends_in_bracket(rest: &[u8], hyphen: usize) -> bool {
    let end = skipped(rest, hyphen);
    end.starts_with(b"-[]") || end.starts_with(b"-[^")
}

/// By the bytes of an interval.
fn interval_hint(spot: Spot) -> &'static str {
    if spot.delimiter() == b',' && !ends_before(spot.rest, ",") {
        return "the comma is the delimiter here: write `\\{1\\,2\\}`, or use another delimiter";
    }
    if byte_at(spot.rest, 2) == b',' {
        return "for `x\\{,3\\}` write `x\\{0,3\\}`";
    }
    if ends_before(spot.rest, "\n") {
        return bounds_hint(skipped(spot.rest, 2));
    }
    "an interval ends in `\\}`; write a literal `{` without a backslash"
}

/// By what follows the `\{` of an interval that is closed on its line.
fn bounds_hint(bounds: &[u8]) -> &'static str {
    let behind = after_any(bounds, DIGITS);
    let most = behind.strip_prefix(b",").unwrap_or(behind);
    if behind.len() == bounds.len() || !after_any(most, DIGITS).starts_with(b"\\}") {
        return "an interval has one number, or two with a comma between them, as in `a\\{1,2\\}`; write a literal `{` without a backslash";
    }
    if byte_at(most, 0).is_ascii_digit() && number_in(most) < number_in(bounds) {
        return "the first number of an interval is the lower one: write `a\\{1,2\\}` for `a\\{2,1\\}`";
    }
    "write a longer repetition as two, as in `a\\{255\\}a\\{45\\}`"
}

/// Whether the interval has its `\}` before this byte.
fn ends_before(rest: &[u8], end: &str) -> bool {
    has(until_any(rest, end), "\\}")
}

/// By the byte after the backslash.
fn replacement_hint(rest: &[u8]) -> &'static str {
    match byte_at(rest, 1) {
        b'0' => "for `\\0` write `&`",
        b'U' | b'L' | b'u' | b'l' | b'E' => {
            "to change whole lines write `y/abc../ABC../` with the whole alphabet"
        }
        b'1'..=b'9' =>
            "the expression has fewer groups: a group is written `\\(` and `\\)`; is the script meant for `sed -E`?",
        b'x' | b'o' | b'c' | b'd' => {
            "write the byte itself, but a newline as `\\n`, `&` as `\\&`, a backslash as `\\\\`, and the delimiter after a backslash"
        }
        b'r' | b'f' | b'v' | b'a' =>
            "GNU sed reads this as a control character: write that character itself, or the letter if that is meant",
        _ => "write the character without the backslash",
    }
}

fn flag_hint(rest: &[u8]) -> &'static str {
    match byte_at(rest, 0) {
        b'I' | b'i' =>
            "for `s/hello/x/I` write `s/[hH][eE][lL][lL][oO]/x/`, if the expression has no reference; in UTF-8 `I` also takes U+0131 for an `i` and \
                U+017F for an `s`",
        b'e' => "POSIX sed can't run other programs: do it outside the script",
        b'm' | b'M' => LINES,
        b'"' | b'\'' => QUOTES,
        b'0' => "matches are counted from 1",
        b'1'..=b'9' => "give only one number among the flags, of at most 4,294,967,295",
        _ =>
            "does the text have the delimiter? Then use another one, as in `s,a/b,c,`; the flags are `g`, `p`, a number, and `w` with a file name, each once",
    }
}

/// At a backslash, at a `[` of the first list, or at the verb.
fn list_hint(rest: &[u8]) -> &'static str {
    match byte_at(rest, 0) {
        b'\\' =>
            "write the character itself; a backslash may only precede a backslash, an `n` or the delimiter",
        b'[' =>
            "BusyBox reads `[` as the start of a bracket list here: add one character and a `]` after it to both lists, as in `y/[a]/(a]/` for `y/[/(/`",
        _ => "make both lists the same length",
    }
}

/// Whether the command with this verb has a text on the same line that begins with a backslash.
pub fn has_escaped_text(rest: &[u8]) -> bool {
    let text = without_blanks(skipped(rest, 1));
    text.starts_with(b"\\") && byte_at(text, 1) != b'\n'
}

/// At the verb of a text.
fn text_hint(rest: &[u8]) -> &'static str {
    let text = without_blanks(skipped(rest, 1));
    if !text.starts_with(b"\\") {
        return match byte_at(rest, 0) {
            b'c' => "write `c\\` and the text on the next line",
            b'i' => "write `i\\` and the text on the next line",
            _ => "write `a\\` and the text on the next line",
        };
    }
    if "\\\n".as_bytes().starts_with(text) {
        return "`$a\\` adds a missing last newline, but only in GNU sed: add it before sed; for a text write `a\\` and the text on the next line";
    }
    match byte_at(rest, 0) {
        b'c' =>
            "seds differ on a text that begins with a backslash: write `c\\`, a newline and the text",
        b'i' =>
            "seds differ on a text that begins with a backslash: write `i\\`, a newline and the text",
        _ =>
            "seds differ on a text that begins with a backslash: write `a\\`, a newline and the text",
    }
}

/// Whether braces are next, after blanks or none, and a comment right after them.
fn has_braced_comment(rest: &[u8]) -> bool {
    let braces = without_blanks(rest);
    braces.starts_with(b"}") && after_any(braces, "}").starts_with(b"#")
}

fn label_hint(rest: &[u8]) -> &'static str {
    if rest.starts_with(b"#") {
        return "some seds read `#` as a label here: write the comment on a line of its own";
    }
    if has_braced_comment(rest) {
        return "BusyBox reads the `}` and the comment as part of the label: write a `;` before the `}`";
    }
    if rest.starts_with(b"}") {
        return "in a nested block BusyBox reads the `}` as part of the label: write a `;` before it";
    }
    "a label consists of letters, digits, `_`, `.` and `-`"
}

/// After a command that should have ended.
fn end_hint(spot: Spot) -> &'static str {
    if spot.rest.starts_with(b"\\\n") {
        return "BusyBox joins this line with the next one: end the name or the comment with another character";
    }
    let Reading { place, command, .. } = spot.in_script();
    let byte = byte_at(spot.rest, 0);
    if is_control(byte, byte_at(spot.rest, 1)) {
        return "remove this control character: a terminal may obey it, and BusyBox skips some before a name";
    }
    match place {
        Place::Flags if is_among(byte, "gpw0123456789IimMe") =>
            "remove the blank before the flag: `s/a/b/p` for `s/a/b/ p`",
        Place::Command if byte == b'g' && command == b'y' =>
            "`y` takes no flags, and always replaces every character: leave it out",
        Place::Label | Place::LabelEnd =>
            "a label can't contain blanks: write `:two_words`, and the same after `b` and `t`; a command follows a `;` or a newline",
        _ if byte.is_ascii_digit() && spot.follows("q") =>
            "an exit status of `q` is an extension of GNU sed: without it the status is 0, so look for the line outside the script, as with `grep`",
        _ if byte.is_ascii_digit() && spot.follows("lL") => {
            "an exit status of `q` and a width of `l` are extensions of GNU sed: leave them out"
        }
        _ => "end each command with a newline or a `;`",
    }
}

/// Whether a control character begins with these bytes, which is one byte or two of UTF-8.
fn is_control(first: u8, second: u8) -> bool {
    first < 32 || first == 127 || (first == 194 && second >= 128 && second <= 159)
}

fn delimiter_hint(rest: &[u8]) -> &'static str {
    if rest.starts_with(b"\\x") {
        return "GNU sed reads `\\x` as the start of a number: use a delimiter that isn't in the expression";
    }
    "use a delimiter that isn't in the expression"
}
