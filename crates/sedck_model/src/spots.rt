//! Where a match has come to.

ghost use Rattle.std.specs.Prelude.{◌≡◌};
ghost use Rattle.sedck_bre.specs.Match.{text_of};
ghost use Rattle.sedck_model.specs.Spots.{groups_of};

/// A part of a text, from one offset to before another one.
#[derive(Clone, Copy, PartialEq, Eq)]
pub struct Span {
    pub start: usize,
    pub end: usize,
}

/// Where a match has come to in a text.
#[derive(Clone, Copy, PartialEq, Eq)]
pub struct Spot {
    /// The offset.
    pub at: usize,
    /// The part of the text that each group has matched, by the number of the group.
    pub groups: [Option<Span>; 256],
}

impl Spot {
    /// The text of a group, empty where the group has none.
    pub fn group_text<'a>(&self, text: &'a [u8], group: u8) -> &'a [u8]
        ensures { result.now ≡ text_of (groups_of text.now self.now.groups) group }
    {
        match self.groups[group as usize] {
            Some(span) => {
                let end = span.end.min(text.len());
                let start = span.start.min(end);
                &text[start..end]
            }
            None => &[],
        }
    }
}
