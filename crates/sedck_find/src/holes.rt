//! The holes of a script, with letters in their places that fit their roles.

use crate::script::Around;
use crate::words::{CallWord, add, empty};
use sedck_call::{Call, Piece};
use sedck_found::{OpenHole, Role};
use sedck_origin::{Hole, Origin, Result, Traced, Way};
use sedck_parts::{Place, Reading};
use std::alloc::Global;

/// The most holes of a script.
const MOST: usize = 1000;

/// The state of giving holes their roles.
#[derive(Drop)]
struct Roles {
    reading: Reading,
    text: Traced,
    holes: Vec<OpenHole>,
    /// Whether a hole has no role, so that the script is unknown.
    is_unknown: bool,
    /// Whether a hole of an expression or a list ends here.
    follows_hole: bool,
    /// Whether a hyphen of a list ends here that may make a range.
    follows_hyphen: bool,
    /// The hole that was read last, in whose place several bytes may be.
    last: Option<Hole>,
}

/// The text of the script of a call with letters in place of the holes, and the holes; none if a hole has no role.
pub(crate) fn roles_of(
    alloc: Global,
    call: &Call,
    around: Around<'_>,
) -> Result<Option<(Traced, Vec<OpenHole>)>> {
    let mut roles = Roles {
        reading: Reading::SCRIPT,
        text: empty(alloc),
        holes: Vec::new(alloc),
        is_unknown: false,
        follows_hole: false,
        follows_hyphen: false,
        last: None,
    };
    for (index, piece) in call.pieces.iter().enumerate() {
        if index > 0 {
            roles.read(b'\n', Origin::Between)?;
        }
        let (word, from) = match *piece {
            Piece::File(_) => (around.here, 0),
            Piece::Text(origin) => (around.words.get(origin.word), origin.from),
        };
        if let Some(CallWord { traced, .. }) = word {
            for (byte, origin) in traced.bytes.iter().zip(&traced.origins).skip(from) {
                roles.read(*byte, *origin)?;
            }
        }
    }
    Ok((!roles.is_unknown).then_some((roles.text, roles.holes)))
}

impl Roles {
    /// Reads a byte, or a hole.
    fn read(&mut self, byte: u8, origin: Origin) -> Result<()> {
        match origin {
            Origin::Hole(hole) if self.last == Some(hole) => return Ok(()),
            Origin::Hole(hole) => return self.read_hole(hole),
            _ => self.is_unknown |= self.follows_hole && self.changes_hole(byte),
        }
        let before = self.reading;
        self.reading = before.after(byte);
        self.follows_hole = self.follows_hole && self.reading.is_escaped;
        self.follows_hyphen = byte == b'-'
            && matches!(before.place, Place::List | Place::ListEscape);
        add(&mut self.text, byte, origin)
    }

    /// Whether the byte says how often what is before it is matched, or makes a range of it.
    fn changes_hole(&self, byte: u8) -> bool {
        match self.reading.place {
            Place::Expression if self.reading.is_escaped => matches!(byte, b'{' | b'+' | b'?'),
            Place::Expression => byte == b'*',
            Place::List => byte == b'-',
            _ => false,
        }
    }

    /// Reads a hole: puts letters in its place that fit its role, which has none where no letters do.
    fn read_hole(&mut self, hole: Hole) -> Result<()> {
        self.last = Some(hole);
        let place = self.reading.place;
        if let Place::Text | Place::TextBegin = place {
            self.reading.place = Place::Text;
            self.reading.delimiter = 0;
        }
        let (role, letters) = match place {
            _ if self.reading.is_escaped => (Role::Text, ""),
            Place::Expression => (Role::Expression, "x*"),
            Place::List | Place::ListBegin | Place::ListNegated | Place::ListEscape => {
                self.reading.place = Place::List;
                (Role::List, "x")
            }
            Place::Replacement => (Role::Replacement, "&x"),
            Place::Text => (Role::Text, "x"),
            Place::Comment => (Role::Comment, "x"),
            Place::TextBegin => (Role::TextBegin, "x"),
            _ => (Role::Text, ""),
        };
        let delimiter = self.reading.delimiter;
        let fits = !letters.is_empty() && !letters.as_bytes().contains(&delimiter);
        let is_one = hole.way != Way::Several && self.holes.len() <= MOST;
        self.is_unknown |= !fits || !is_one || self.follows_hyphen;
        for letter in letters.as_bytes() {
            add(&mut self.text, *letter, Origin::Hole(hole))?;
        }
        self.holes.push(OpenHole::new(hole, role, delimiter))?;
        self.follows_hole = true;
        self.follows_hyphen = false;
        Ok(())
    }
}
