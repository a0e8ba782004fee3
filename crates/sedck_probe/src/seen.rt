//! What was seen of a run.

ghost use Rattle.std.specs.Prelude.{◌≡◌, ◌<◌, length, IfSome};

use std::alloc::{AllocError, Global};

/// What was seen before a command, or after the last one.
#[derive(Drop)]
pub struct Seen {
    pub place: usize,
    /// How many lines had been read.
    pub read: usize,
    pub pattern: Vec<u8>,
    pub hold: Vec<u8>,
}

/// What was seen of a run.
#[derive(Drop)]
pub struct Trace {
    pub name: String,
    /// The input.
    pub lines: Vec<Vec<u8>>,
    pub states: Vec<Seen>,
    pub is_done: bool,
}

impl Trace {
    pub fn new(alloc: Global) -> Trace {
        Trace {
            name: String::new(alloc),
            lines: Vec::new(alloc),
            states: Vec::new(alloc),
            is_done: false,
        }
    }

    /// Adds what a line says; false where it can't be read.
    pub fn add(&mut self, alloc: Global, line: &str) -> Result<bool, AllocError> {
        let words: Vec<&str> = line.split(' ').collect(alloc)?;
        match words.len() {
            1 => Ok(self.add_end(words[0])),
            2 if words[0] == "run" => self.add_name(words[1]),
            2 if words[0] == "input" => self.add_input(alloc, words[1]),
            5 if words[0] == "state" => self.add_state(alloc, &words[1..]),
            _ => Ok(false),
        }
    }

    fn add_end(&mut self, word: &str) -> bool {
        self.is_done = word == "done";
        self.is_done
    }

    fn add_name(&mut self, name: &str) -> Result<bool, AllocError> {
        self.name.push_str(name)?;
        Ok(true)
    }

    fn add_input(&mut self, alloc: Global, text: &str) -> Result<bool, AllocError> {
        let Some(line) = bytes_of(alloc, text)? else {
            return Ok(false);
        };
        self.lines.push(line)?;
        Ok(true)
    }

    /// Adds the state with this place, these lines read, and these spaces.
    fn add_state(&mut self, alloc: Global, words: &[&str]) -> Result<bool, AllocError>
        requires { length words.now ≡ 4 }
    {
        let (Ok(place), Ok(read)) = (words[0].parse::<usize>(), words[1].parse::<usize>()) else {
            return Ok(false);
        };
        let Some(pattern) = bytes_of(alloc, words[2])? else {
            return Ok(false);
        };
        let Some(hold) = bytes_of(alloc, words[3])? else {
            return Ok(false);
        };
        self.states.push(Seen {
            place,
            read,
            pattern,
            hold,
        })?;
        Ok(true)
    }
}

/// The bytes that the word says in hexadecimal; `-` is the empty text.
fn bytes_of(alloc: Global, word: &str) -> Result<Option<Vec<u8>>, AllocError> {
    let mut bytes = Vec::new(alloc);
    if word == "-" {
        return Ok(Some(bytes));
    }
    for pair in word.as_bytes().chunks(2) {
        let Some(byte) = byte_of(pair) else {
            return Ok(None);
        };
        bytes.push(byte)?;
    }
    Ok(Some(bytes))
}

/// The byte that two digits say.
fn byte_of(pair: &[u8]) -> Option<u8> {
    if pair.len() != 2 {
        return None;
    }
    let (high, low) = (digit(pair[0])?, digit(pair[1])?);
    Some(16 * high + low)
}

/// The value of a hexadecimal digit.
fn digit(byte: u8) -> Option<u8>
    ensures { IfSome result (λ value. value < 16) }
{
    match byte {
        b'0'..=b'9' => Some(byte - b'0'),
        b'a'..=b'f' => Some(byte - b'a' + 10),
        _ => None,
    }
}
