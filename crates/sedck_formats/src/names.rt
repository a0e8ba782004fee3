//! The names under which positions of a script are reported: a script is a file, or is joined from the parts of a call of sed.

ghost use Rattle.std.specs.Prelude.{◌≡◌, [], length};
ghost use Rattle.sedck_formats.specs.Names.{IsPlace};

use sedck_report::Position;

/// A part of a script, as one `-e` or `-f` of a call gives it.
#[derive(Drop)]
pub struct PartName {
    /// The line of the script with which it begins, from 1.
    pub line: usize,
    pub name: String,
}

/// What a script and its parts are called.
#[derive(Clone, Copy)]
pub struct Names<'a> {
    whole: &'a str,
    parts: &'a [PartName],
}

/// A position by the part in which it is.
#[derive(Clone, Copy)]
pub struct Place<'a> {
    pub name: &'a str,
    /// From 1, where the part begins.
    pub line: usize,
    pub column: usize,
}

impl<'a> Names<'a> {
    /// Those of a script that is a file.
    pub fn of_file(name: &'a str) -> Names<'a>
        ensures whole { result.whole.now ≡ name.now }
        ensures parts { result.parts.now ≡ [] }
    {
        Names {
            whole: name,
            parts: &[],
        }
    }

    /// Those of a script that is joined from these parts, which are in order; the first begins at line 1.
    pub fn of_call(name: &'a str, parts: &'a [PartName]) -> Names<'a>
        ensures whole { result.whole.now ≡ name.now }
        ensures parts { result.parts.now ≡ parts.now }
    {
        Names { whole: name, parts }
    }

    /// The name of the whole script.
    pub fn whole(self) -> &'a str
        ensures { result.now ≡ self.entry.whole.now }
    {
        self.whole
    }

    /// How many parts there are; none where the script is a file.
    pub fn part_count(self) -> usize
        ensures { result ≡ length self.entry.parts.now }
    {
        self.parts.len()
    }

    /// The position in the last part that begins at or before its line, or in the whole where no part does.
    pub fn place_of(self, position: Position) -> Place<'a>
        ensures { IsPlace self.entry.whole.now self.entry.parts.now position result }
    {
        let Position {
            offset: _,
            line,
            column,
        } = position;
        let mut place = Place {
            name: self.whole,
            line,
            column,
        };
        for part in self.parts {
            if part.line <= line {
                place = Place {
                    name: part.name.as_str(),
                    line: (line - part.line).saturating_add(1),
                    column,
                };
            }
        }
        place
    }
}
