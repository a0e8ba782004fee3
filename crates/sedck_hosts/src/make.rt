//! Makefiles: lines of recipes, `$(shell ..)`, and assignments (POSIX.1-2024 XCU make, and GNU make). Lines of conditionals are passed, so that
//! all branches are read.

use crate::host::{Assignment, Host};
use crate::make_text::{Reading, after_conditionals, read_make_text, until};
use crate::parts::{Part, is, is_word_of};
use sedck_origin::{Result, Unit};
use std::alloc::Global;

/// Words that may stand before an assignment.
const MODIFIERS: &str = "export override private";

/// Other words that begin a line which is neither a rule nor an assignment.
const DIRECTIVES: &str = "else vpath undefine unexport endef ifeq ifneq ifdef ifndef if endif \
    include -include sinclude load -load";

/// The operators of assignments: `?=` sets the name if nothing else does, `+=` adds the value, and `!=` has the shell write it.
const OPERATORS: &str = "= := ::= :::= ?= += !=";

/// An assignment of a line.
#[derive(Clone, Copy)]
struct Definition<'a> {
    name: &'a [u8],
    /// Its operator.
    sign: &'a [u8],
    /// The value, which goes to the line's end.
    value: Part<'a>,
}

/// The state of reading a makefile.
#[derive(Drop)]
struct Make {
    alloc: Global,
    host: Host,
    /// Whether a line that begins with a tab is a recipe, whatever it looks like.
    is_in_rule: bool,
    /// How many `define` aren't ended.
    defines: usize,
}

/// The shell text of a makefile.
pub(crate) fn host_of_make(alloc: Global, file: &[u8]) -> Result<Host> {
    let mut make = Make {
        alloc,
        host: Host::new(alloc),
        is_in_rule: false,
        defines: 0,
    };
    let mut rest = Part::whole(file);
    for _ in 0..file.len() {
        let Some((line, next)) = rest.split_line(true) else {
            break;
        };
        rest = next;
        make.read_line(after_conditionals(line))?;
    }
    Ok(make.host)
}

impl Make {
    /// Reads a line with those that continue it.
    fn read_line(&mut self, line: Part) -> Result<()> {
        let statement = after_modifiers(line);
        if self.defines > 0 {
            return self.read_in_define(line, statement);
        }
        let has_tab = line.starts_with("\t");
        if has_tab && self.is_in_rule {
            return self.add(command_of(line), Reading::Recipe);
        }
        if let Some(definition) = definition_at(statement) {
            self.is_in_rule = false;
            return self.define(statement, definition);
        }
        if has_tab {
            return self.add(command_of(line), Reading::Recipe);
        }
        if statement.is_ended() {
            return Ok(());
        }
        self.read_statement(statement)
    }

    /// Reads a line between `define` and `endef`.
    fn read_in_define(&mut self, line: Part, statement: Part) -> Result<()> {
        let (word, _) = statement.split_word();
        match word {
            b"endef" => self.defines = self.defines.saturating_sub(1),
            b"define" => self.defines = self.defines.saturating_add(1),
            _ => return self.add(command_of(line), Reading::Defined),
        }
        Ok(())
    }

    /// Reads a line that is neither one of a recipe nor an assignment.
    fn read_statement(&mut self, line: Part) -> Result<()> {
        let (word, rest) = line.split_word();
        if is(word, "define") {
            self.is_in_rule = false;
            self.defines = 1;
            let name = rest.before(until(rest, " \t=:?+!#"));
            return self.assign_unknown(name, line);
        }
        if is_word_of(word, DIRECTIVES) {
            return self.add(line, Reading::Value);
        }
        self.read_rule(line)
    }

    /// Reads a line with targets, after which an assignment or a recipe may stand.
    fn read_rule(&mut self, line: Part) -> Result<()> {
        let colon = until(line, ":#;");
        if !colon.begins_with(b':') {
            return self.add(line, Reading::Value);
        }
        self.is_in_rule = true;
        let rest = colon.after_any(":");
        if let Some(definition) = definition_at(after_modifiers(rest)) {
            return self.define(line, definition);
        }
        let behind = until(rest, ";#");
        self.add(line.to(behind.start), Reading::Value)?;
        if behind.begins_with(b';') {
            return self.add(command_of(behind.skip(1)), Reading::Recipe);
        }
        Ok(())
    }

    /// Adds a part of a line, if the shell reads it, and the arguments of `$(shell ..)` in it.
    fn add(&mut self, part: Part, reading: Reading) -> Result<()> {
        let units = self.read_text(part, reading)?;
        match reading {
            Reading::Value => Ok(()),
            _ => self.host.add(units),
        }
    }

    /// Reads a part of a line, and adds the arguments of `$(shell ..)` in it.
    fn read_text(&mut self, part: Part, reading: Reading) -> Result<Vec<Unit>> {
        let text = read_make_text(self.alloc, part, reading)?;
        for argument in &text.arguments {
            let inner = read_make_text(self.alloc, *argument, Reading::Argument)?;
            self.host.add(inner.units)?;
        }
        Ok(text.units)
    }

    /// Reads an assignment. With `!=` its value is shell text; after `+=` and `!=` the value of the name is unknown.
    fn define(&mut self, line: Part, definition: Definition) -> Result<()> {
        let value = self.read_text(definition.value, Reading::Value)?;
        if is(definition.sign, "!=") {
            self.host.add(value)?;
            return self.assign_unknown(definition.name, line);
        }
        if is(definition.sign, "+=") {
            return self.assign_unknown(definition.name, line);
        }
        self.assign(definition.name, value)
    }

    /// Adds an assignment of a value that is unknown: all of the line is its hole.
    fn assign_unknown(&mut self, name: &[u8], line: Part) -> Result<()> {
        let mut value = Vec::new(self.alloc);
        value.push(Unit::made(line.start, line.end))?;
        self.assign(name, value)
    }

    /// Adds an assignment, if its name is known: there is one, without what make or `configure` replaces.
    fn assign(&mut self, bytes: &[u8], value: Vec<Unit>) -> Result<()> {
        if !bytes.is_empty() && !bytes.contains(&b'$') && !bytes.contains(&b'@') {
            let name = bytes.to_vec(self.alloc)?;
            self.host.assignments.push(Assignment { name, value })?;
        }
        Ok(())
    }
}

/// The line without blanks at its beginning, and without words that may stand before an assignment.
fn after_modifiers(line: Part) -> Part<'_> {
    let words = line.after_blanks();
    words.after_words(4, |word| is_word_of(word, MODIFIERS))
}

/// The assignment that the part is, if it is one: a name, blanks, and an operator.
fn definition_at(whole: Part) -> Option<Definition<'_>> {
    let rest = until(whole, " \t=:;#");
    let mut name = whole.to(rest.start);
    if rest.begins_with(b'=') && matches!(name.bytes().last(), Some(b'?' | b'+' | b'!')) {
        name = name.to(name.end.saturating_sub(1));
    }
    if name.len() == 0 {
        return None;
    }
    let rest = whole.from(name.end).after_blanks();
    let value = rest.from_any("=").skip(1);
    let (sign, value) = (rest.before(value), value.after_blanks());
    let name = name.bytes();
    is_word_of(sign, OPERATORS).then_some(Definition { name, sign, value })
}

/// The command of a recipe's line: what is after blanks, `@`, `-` and `+`, but not after the `@` of a name with two of them around it.
fn command_of(line: Part) -> Part<'_> {
    let mut rest = line;
    for _ in 0..line.len() {
        rest = rest.after_any(" \t-+");
        let name = rest.skip(1);
        let behind = name.after_name();
        let is_placeholder = behind.begins_with(b'@') && behind.start > name.start;
        if !rest.starts_with("@") || is_placeholder {
            break;
        }
        rest = name;
    }
    rest
}
