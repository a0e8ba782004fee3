//! A reader that knows just enough of sed's language to say in which part of a script a byte is (POSIX.1-2024 XCU, sed), also of a text
//! that is no script, or none yet. Where `sedck_script` accepts the text, both find the same parts: `tests/parts.py` compares them.

/// Where in a script the next byte is.
#[derive(Clone, Copy, PartialEq, Eq)]
pub enum Place {
    /// In addresses, before a command, or behind one.
    Command,
    /// The delimiter of an address, behind its backslash.
    AddressDelimiter,
    /// The delimiter of `s` or `y`.
    Delimiter,
    /// In an expression, outside of its bracket lists.
    Expression,
    /// Behind `\{`.
    Interval,
    /// Behind the `[` of a list.
    ListBegin,
    /// Behind the `[^` of a list.
    ListNegated,
    /// In a list.
    List,
    /// Behind a `[` of a list.
    ListBracket,
    /// Behind a `[` of a list and a backslash, which may escape a delimiter that begins a class.
    ListEscape,
    /// In the class or symbol of a list that `[` and this byte begin.
    Class(u8),
    /// Behind a byte that may end it.
    ClassEnd(u8),
    Replacement,
    /// Behind the replacement.
    Flags,
    /// In the first list of `y`.
    FirstString,
    SecondString,
    /// Behind the name of `a`, `i` or `c`.
    TextBegin,
    /// Behind `a\`, `i\` or `c\`.
    TextBackslash,
    Text,
    /// In what ends with the line: the name of a file, or a command for a shell.
    Line,
    /// Behind the name of a command that takes a label.
    LabelBegin,
    Label,
    /// Behind a label and a blank.
    LabelEnd,
    Comment,
}

/// A reader that is somewhere in a script.
#[derive(Clone, Copy)]
pub struct Reading {
    pub place: Place,
    /// The delimiter of the part, or of the last one.
    pub delimiter: u8,
    /// The last byte of addresses and of names of commands that is no blank.
    pub command: u8,
    /// Whether a backslash escapes the next byte, outside of bracket lists.
    pub is_escaped: bool,
    /// The groups of the expression that are open.
    pub groups: usize,
}

impl Reading {
    /// A reader before a script.
    pub const SCRIPT: Reading = Reading {
        place: Place::Command,
        delimiter: b'/',
        command: b'/',
        is_escaped: false,
        groups: 0,
    };

    /// A reader before an expression that no delimiter ends.
    pub const START: Reading = Reading {
        place: Place::Expression,
        delimiter: b'\n',
        ..Reading::SCRIPT
    };

    /// A reader before an expression that this delimiter ends.
    pub fn of_expression(delimiter: u8) -> Reading {
        Reading {
            delimiter,
            ..Reading::START
        }
    }

    /// Whether the reader is in a bracket list.
    pub fn is_in_list(self) -> bool {
        matches!(
            self.place,
            Place::ListBegin
                | Place::ListNegated
                | Place::List
                | Place::ListBracket
                | Place::ListEscape
                | Place::Class(_)
                | Place::ClassEnd(_)
        )
    }

    /// Whether the reader is in an expression.
    pub fn is_in_expression(self) -> bool {
        matches!(self.place, Place::Expression | Place::Interval) || self.is_in_list()
    }

    /// The reader behind this text.
    pub fn through(self, text: &[u8]) -> Reading {
        let mut reading = self;
        for byte in text {
            reading = reading.after(*byte);
        }
        reading
    }

    /// The reader behind this byte.
    pub fn after(self, byte: u8) -> Reading {
        if self.is_escaped {
            return self.after_escaped(byte);
        }
        let place = match self.place {
            Place::Command => return self.after_name(byte),
            Place::AddressDelimiter | Place::Delimiter => return self.opened(byte),
            Place::Expression
            | Place::Interval
            | Place::Replacement
            | Place::FirstString
            | Place::SecondString
            | Place::Text
                if byte == b'\\' && self.delimiter != byte => {
                return Reading {
                    is_escaped: true,
                    ..self
                };
            }
            Place::Expression | Place::Interval => self.behind_expression(byte),
            Place::Replacement | Place::FirstString | Place::SecondString => {
                self.behind_string(byte)
            }
            _ if self.is_in_list() => self.behind_list(byte),
            _ => self.behind_line(byte),
        };
        Reading { place, ..self }
    }

    /// Behind a byte of addresses, or the name of a command.
    fn after_name(self, byte: u8) -> Reading {
        let place = match byte {
            b' ' | b'\t' => return self,
            b'/' => Place::Expression,
            b'\\' => Place::AddressDelimiter,
            b's' | b'y' => Place::Delimiter,
            b'a' | b'i' | b'c' => Place::TextBegin,
            b'r' | b'w' | b'R' | b'W' | b'e' => Place::Line,
            b':' | b'b' | b't' | b'T' => Place::LabelBegin,
            b'#' => Place::Comment,
            _ => Place::Command,
        };
        Reading {
            place,
            delimiter: if byte == b'/' { byte } else { self.delimiter },
            command: byte,
            groups: 0,
            ..self
        }
    }

    /// Behind the delimiter that begins an expression, or the first list of `y`.
    fn opened(self, delimiter: u8) -> Reading {
        Reading {
            place: match self.place {
                Place::Delimiter if self.command == b'y' => Place::FirstString,
                _ => Place::Expression,
            },
            delimiter,
            groups: 0,
            ..self
        }
    }

    /// Behind a byte that a backslash escapes.
    fn after_escaped(self, byte: u8) -> Reading {
        let groups = match (self.place, byte) {
            (Place::Expression, b'(') => self.groups.saturating_add(1),
            (Place::Expression, b')') => self.groups.saturating_sub(1),
            _ => self.groups,
        };
        let place = match (self.place, byte) {
            (Place::Expression, b'{') if self.delimiter != byte => Place::Interval,
            (Place::Interval, b'}') => Place::Expression,
            (place, _) => place,
        };
        Reading {
            place,
            groups,
            is_escaped: false,
            ..self
        }
    }

    /// The place behind a byte of an expression that isn't in a list.
    fn behind_expression(self, byte: u8) -> Place {
        match (self.place, byte) {
            (Place::Interval, b'}') => Place::Expression,
            (Place::Interval, _) => Place::Interval,
            _ if byte == self.delimiter && self.command == b's' => Place::Replacement,
            _ if byte == self.delimiter => Place::Command,
            (_, b'[') => Place::ListBegin,
            _ => Place::Expression,
        }
    }

    /// The place behind a byte of a list.
    fn behind_list(self, byte: u8) -> Place {
        match (self.place, byte) {
            (Place::ListBegin, b'^') => Place::ListNegated,
            (Place::ListBegin | Place::ListNegated, b']') => Place::List,
            (Place::ListBracket, b':' | b'.' | b'=') => Place::Class(byte),
            (Place::ListBracket, b'\\') => Place::ListEscape,
            (Place::ListEscape, b':' | b'=') if byte == self.delimiter => Place::Class(byte),
            (Place::ClassEnd(_), b']') => Place::List,
            (Place::Class(end) | Place::ClassEnd(end), _) if byte == end => Place::ClassEnd(end),
            (Place::Class(end) | Place::ClassEnd(end), _) => Place::Class(end),
            (_, b'[') => Place::ListBracket,
            (_, b']') => Place::Expression,
            _ => Place::List,
        }
    }

    /// The place behind a byte of a replacement, or of a list of `y`.
    fn behind_string(self, byte: u8) -> Place {
        match self.place {
            place if byte != self.delimiter => place,
            Place::FirstString => Place::SecondString,
            Place::SecondString => Place::Command,
            _ => Place::Flags,
        }
    }

    /// The place behind a byte of flags, a text, a name, a label or a comment.
    fn behind_line(self, byte: u8) -> Place {
        match (self.place, byte) {
            (Place::TextBegin, b'\\') => Place::TextBackslash,
            (Place::TextBegin | Place::TextBackslash | Place::LabelBegin, b' ' | b'\t') => {
                self.place
            }
            (Place::TextBackslash, _) => Place::Text,
            (_, b'\n') => Place::Command,
            (Place::TextBegin, _) => Place::Text,
            (Place::Flags, b'w') => Place::Line,
            (Place::Flags | Place::LabelEnd, b'#') => Place::Comment,
            (Place::Flags | Place::LabelBegin | Place::Label | Place::LabelEnd, b';' | b'}') =>
                Place::Command,
            (Place::Label, b' ' | b'\t') => Place::LabelEnd,
            (Place::LabelBegin, _) => Place::Label,
            (place, _) => place,
        }
    }
}
