//! Positions of a script as positions of its file.

ghost use Rattle.std.specs.Prelude.{◌≡◌, IfOk};
ghost use Rattle.sedck_report.specs.Positions.{position_in};
ghost use Rattle.sedck_calls_in_files.specs.Placed.{IsIn};

use sedck_explanation::{Position, position_at, position_from};
use sedck_origin::Origin;
use std::alloc::{AllocError, Global};

/// Where the bytes of a script are in its file.
#[derive(Drop)]
pub(crate) struct Places<'a> {
    file: &'a [u8],
    /// The position of the call.
    call: Position,
    /// The offset in the file of each byte of the script, and of its end.
    offsets: Vec<usize>,
    /// The last position that was asked for: the next one is mostly after it.
    last: Position,
    ghost call_in_file: { call ≡ position_in file.now call.offset },
    ghost last_in_file: { last ≡ position_in file.now last.offset },
}

impl<'a> Places<'a> {
    /// The places of a script of the call at this position, by the origins of its bytes.
    pub fn new(
        alloc: Global,
        file: &'a [u8],
        call: Position,
        origins: &[Origin],
    ) -> Result<Places<'a>, AllocError>
        requires { call ≡ position_in file.now call.offset }
        ensures { IfOk result (λ places. places.file.now ≡ file.now) }
    {
        Ok(Places {
            file,
            call,
            offsets: offsets_of(alloc, call.offset, origins)?,
            last: call,
        })
    }

    /// The position of the call.
    pub fn call(&self) -> Position
        ensures { IsIn self.now.file.now result }
    {
        self.call
    }

    /// The position in the file of the byte at this position of the script.
    pub fn place(&mut self, position: Position) -> Position
        ensures file { self.new.file ≡ self.old.file }
        ensures place { IsIn self.old.file.now result }
    {
        let offset = self.offset_of(position.offset);
        self.place_offset(offset)
    }

    /// The position of the first byte after the part of the script that ends with this position and begins with another.
    pub fn end(&mut self, start: Position, end: Position) -> Position
        ensures file { self.new.file ≡ self.old.file }
        ensures place { IsIn self.old.file.now result }
    {
        if end.offset <= start.offset {
            return self.place(start);
        }
        let last = self.offset_of(end.offset.saturating_sub(1));
        self.place_offset(last.saturating_add(1))
    }

    /// The position of an offset of the file.
    pub fn place_offset(&mut self, offset: usize) -> Position
        ensures file { self.new.file ≡ self.old.file }
        ensures place { IsIn self.old.file.now result }
    {
        let known = if self.last.offset <= offset {
            self.last
        } else if self.call.offset <= offset {
            self.call
        } else {
            position_at(self.file, 0)
        };
        self.last = position_from(self.file, known, offset);
        self.last
    }

    /// The offset in the file of the byte of the script with this offset.
    fn offset_of(&self, offset: usize) -> usize {
        match self.offsets.get(offset) {
            Some(offset) => *offset,
            None => self.call.offset,
        }
    }
}

/// The offset in the file of each byte, and of their end. What isn't in the file has the offset after what precedes it.
fn offsets_of(alloc: Global, call: usize, origins: &[Origin]) -> Result<Vec<usize>, AllocError> {
    let mut offsets = Vec::new(alloc);
    let mut next = call;
    for origin in origins {
        let (start, end) = match *origin {
            Origin::At(offset) | Origin::Value(offset) => (offset, offset.saturating_add(1)),
            Origin::Escape(offset) => (offset, offset.saturating_add(2)),
            Origin::Hole(hole) => (hole.start, hole.end),
            Origin::Given | Origin::Between => (next, next),
        };
        offsets.push(start)?;
        next = end;
    }
    offsets.push(next)?;
    Ok(offsets)
}
