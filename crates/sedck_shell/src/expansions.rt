//! Expansions (XCU 2.6): holes of a word, and the texts of commands in them.

use crate::frame::{Enclosure, Quote};
use crate::output::{MISSES, is_lost};
use crate::reader::{Reader, begins_name, is_in};
use sedck_origin::{Cursor, Unit, Way};

/// How many units are looked at in all for the ends of expressions, so that the time stays linear.
const LOOKAHEAD: usize = 1_000_000;

/// How many units are looked at for the end of one subscript.
const SUBSCRIPT: usize = 100;

impl Reader<'_, '_> {
    /// Reads a dollar sign, and the expansion that begins with it.
    pub fn read_expansion(&mut self, unit: Unit) {
        let length = self.rest.name_length();
        self.note_joined(unit, length);
        let is_bare = self.top.quote == Quote::None;
        match self.rest.peek() {
            Some(b'(') => self.open_substitution(),
            Some(b'{') => self.open_parameter(),
            Some(b'\'') if is_bare => self.open_dollar_quote(unit),
            Some(b'"') if is_bare => {
                self.begin_word(unit.start());
                self.top.unknown = Some((unit.start(), self.top.word.units.len()));
            }
            Some(byte) if begins_name(byte) => self.add_hole_over(length, self.way()),
            Some(b'@') => self.add_hole_over(1, Way::Several),
            // It is as many words as there are, as `@` is; between quotes it is one (XCU 2.5.2).
            Some(b'*') if self.way() == Way::Bare => self.add_hole_over(1, Way::Several),
            byte if is_in(byte, "0123456789*#?-$!") => self.add_hole_over(1, self.way()),
            // Bash reads an expression there.
            Some(b'[') => {
                self.output.note(unit.start());
                self.add(unit);
            }
            _ => self.add(unit),
        }
    }

    /// Reads a backquote, and the command that it begins.
    pub fn read_backquote(&mut self, unit: Unit) {
        let mut rest = self.rest;
        let mut is_quoted = false;
        for count in 0..self.rest.len() {
            let byte = rest.peek();
            match byte {
                Some(b'`') if !is_quoted => return self.add_backquoted(count),
                _ => {}
            }
            if self.output.misses >= MISSES {
                return self.add(unit);
            }
            is_quoted = !is_quoted && byte == Some(b'\\');
            rest = rest.skip(1);
        }
        self.output.miss(unit.start());
        self.add(unit);
    }

    /// Adds the command of so many units after a backquote: a backslash before a dollar sign, a backquote or a backslash is left out
    /// (XCU 2.6.3), between double quotes also one before a double quote, and one before a newline with that. Elsewhere shells differ in one
    /// before a double quote.
    fn add_backquoted(&mut self, count: usize) {
        let is_double = self.top.quote == Quote::Double || self.top.is_in_double;
        let is_either = self.top.is_in_double
            || self.top.quote == Quote::Body
            || self.top.enclosure == Enclosure::Arithmetic;
        let mut inner = Vec::new(self.alloc);
        let mut rest = self.rest.take(count);
        for _ in 0..count {
            let Some((unit, behind)) = rest.split_first() else {
                break;
            };
            rest = behind;
            let byte = rest.peek();
            let mut kept = unit;
            if unit.byte() == Some(b'\\') {
                self.output
                    .note_if(is_either && byte == Some(b'"'), unit.start());
                if byte == Some(b'\n') {
                    rest = rest.skip(1);
                    continue;
                }
                if is_in(byte, quotable(is_double)) {
                    kept = rest.get(0).unwrap_or(unit);
                    rest = rest.skip(1);
                }
            }
            self.output.is_lost |= is_lost(&mut inner, kept);
        }
        self.output.add_job(inner, Quote::None, None);
        self.add_hole_over(count.saturating_add(1), self.way());
    }

    /// Opens `$((` or `$(`.
    fn open_substitution(&mut self) {
        let hole = Some(self.way());
        if self.rest.byte(1) == Some(b'(') && self.is_expression(2) {
            return self.open(2, Enclosure::Arithmetic, hole);
        }
        self.open(1, Enclosure::Substitution, hole);
    }

    /// Opens `${`. In a pattern that is taken off or replaced a single quote quotes, also between double quotes.
    fn open_parameter(&mut self) {
        self.open(1, Enclosure::Parameter, Some(self.way()));
        let first = self.rest.peek();
        // Some shells read commands there, and no others anything.
        self.output
            .note_if(is_in(first, " \t\n|"), self.here.start());
        let name = self.rest.skip(usize::from(is_in(first, "!#@*?-$")));
        let behind = name.skip(name.name_length());
        self.top.is_in_double &= !begins_pattern(behind);
        if is_several(first, behind) {
            self.top.hole = Some(Way::Several);
        }
    }

    /// Reads a unit between `${` and `}`, or between `((` and `))`.
    pub fn read_within(&mut self, unit: Unit) {
        let is_expression = self.top.enclosure == Enclosure::Arithmetic;
        let byte = unit.byte();
        self.note_odd_quote(byte);
        match byte {
            Some(b'\'') if is_expression || self.top.is_in_double => {
                self.top.odd_quote = match self.top.odd_quote {
                    Some(_) => None,
                    None => Some(unit.start()),
                };
            }
            Some(b'\'') => self.top.quote = Quote::Single,
            Some(b'"') if !is_expression => self.top.quote = Quote::Double,
            Some(b'}') if !is_expression => self.close(unit.end()),
            Some(b'(' | b')') if is_expression => self.read_parenthesis(byte),
            Some(b'\\') => self.pass(1),
            Some(b'$') => self.read_expansion(unit),
            Some(b'`') => self.read_backquote(unit),
            _ => {}
        }
    }

    /// Notes a single quote that quotes to some shells, and is itself to others, where this byte comes before its partner.
    fn note_odd_quote(&mut self, byte: Option<u8>) {
        let is_other = is_in(byte, "}\"`()")
            || (is_in(byte, "$\\") && is_in(self.rest.peek(), "'({"));
        if is_other && let Some(offset) = self.top.odd_quote.take() {
            self.output.note(offset);
        }
    }

    /// Reads a parenthesis between `((` and `))`.
    fn read_parenthesis(&mut self, byte: Option<u8>) {
        let open = self.top.parentheses;
        if byte == Some(b'(') {
            self.top.parentheses = open.saturating_add(1);
        } else if open > 0 {
            self.top.parentheses = open.saturating_sub(1);
        } else {
            let count = usize::from(self.rest.peek() == Some(b')'));
            self.pass(count);
            self.close(self.end_after(count));
        }
    }

    /// Whether the two parentheses before what is after so many units begin an expression, and no group within parentheses (XCU 2.6.3):
    /// whether the one that closes the second is followed by another.
    pub fn is_expression(&mut self, count: usize) -> bool {
        let mut rest = self.rest.skip(count);
        let mut depth = 0usize;
        for _ in 0..rest.len().min(LOOKAHEAD.saturating_sub(self.output.looked)) {
            self.output.looked = self.output.looked.saturating_add(1);
            match rest.peek() {
                Some(b'(') => depth = depth.saturating_add(1),
                Some(b')') if depth == 0 => return rest.byte(1) == Some(b')'),
                Some(b')') => depth = depth.saturating_sub(1),
                _ => {}
            }
            rest = rest.skip(1);
        }
        if self.output.looked >= LOOKAHEAD {
            let offset = self.end_after(count);
            self.output.note_full(offset);
        }
        false
    }
}

/// Whether a pattern that is taken off or replaced begins after the name of a parameter, and perhaps a subscript.
fn begins_pattern(behind: Cursor) -> bool {
    let operator = match behind.peek() {
        Some(b'[') => behind.take(SUBSCRIPT).behind(b']').unwrap_or(behind),
        _ => behind,
    };
    is_in(operator.peek(), "#%/^,")
}

/// Whether a parameter that begins with this byte, and has this after its name, may be several words, also where it is quoted: `@`, `*`,
/// `!name@` and `name[@]`.
fn is_several(first: Option<u8>, behind: Cursor) -> bool {
    is_in(first, "@*")
        || (first == Some(b'!') && is_in(behind.peek(), "@*"))
        || (behind.peek() == Some(b'[') && is_in(behind.byte(1), "@*"))
}

/// What a backslash quotes between backquotes, or between double quotes.
pub(crate) fn quotable(is_double: bool) -> &'static str {
    if is_double { "$`\\\"" } else { "$`\\" }
}
