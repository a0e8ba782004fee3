//! Reports as they are written, part by part.

use sedck_report::{push_html, push_text};
use std::alloc::{AllocError, Global};

/// What has been written of a report. That memory was refused for a part is told at the end alone, where nothing is handed out then: so
/// parts follow one another without a question.
#[derive(Drop)]
pub struct Written {
    alloc: Global,
    out: Vec<u8>,
    is_refused: bool,
}

impl Written {
    /// Nothing yet.
    pub fn new(alloc: Global) -> Written {
        Written {
            alloc,
            out: Vec::new(alloc),
            is_refused: false,
        }
    }

    /// All parts, unless memory was refused for one.
    pub fn finished(self) -> Result<Vec<u8>, AllocError> {
        let Written {
            alloc: _,
            out,
            is_refused,
        } = self;
        if is_refused { Err(AllocError) } else { Ok(out) }
    }

    /// What the parts are made with.
    pub fn alloc(&self) -> Global {
        self.alloc
    }

    /// Notes whether memory was refused.
    fn note(&mut self, is_refused: bool) -> &mut Written {
        self.is_refused = self.is_refused || is_refused;
        self
    }

    /// Words that were put together, or none where memory was refused for them.
    fn made(&mut self, words: Result<String, AllocError>) -> String {
        self.note(words.is_err());
        words.unwrap_or(String::new(self.alloc))
    }

    /// Adds a text as it is.
    pub fn text(&mut self, text: &str) -> &mut Written {
        let is_refused = push_text(&mut self.out, text).is_err();
        self.note(is_refused)
    }

    /// Adds a byte as it is.
    pub fn byte(&mut self, byte: u8) -> &mut Written {
        let is_refused = self.out.push(byte).is_err();
        self.note(is_refused)
    }

    /// Adds words that were put together.
    pub fn words(&mut self, words: Result<String, AllocError>) -> &mut Written {
        let words = self.made(words);
        self.text(words.as_str())
    }

    /// Adds a text in HTML, with entities.
    pub fn html(&mut self, text: &str) -> &mut Written {
        let is_refused = push_html(&mut self.out, text).is_err();
        self.note(is_refused)
    }

    /// Adds words that were put together in HTML.
    pub fn html_words(&mut self, words: Result<String, AllocError>) -> &mut Written {
        let words = self.made(words);
        self.html(words.as_str())
    }

    /// Adds this many spaces.
    pub fn spaces(&mut self, count: usize) -> &mut Written {
        for _ in 0..count {
            self.byte(b' ');
        }
        self
    }

    /// Adds the number in decimal.
    pub fn number(&mut self, number: usize) -> &mut Written {
        let digits = format!(in self.alloc; "{number}");
        self.words(digits)
    }

    /// Adds the number with a comma before each group of three digits.
    pub fn grouped(&mut self, number: u64) -> &mut Written {
        let digits = format!(in self.alloc; "{number}");
        let digits = self.made(digits);
        let mut left = digits.len();
        for digit in digits.as_bytes() {
            if left % 3 == 0 && left < digits.len() {
                self.byte(b',');
            }
            self.byte(*digit);
            left = left.saturating_sub(1);
        }
        self
    }

    /// Adds how many there are of what these words name, one or several.
    pub fn counted(&mut self, count: usize, one: &str, several: &str) -> &mut Written {
        self.grouped(count as u64)
            .text(if count == 1 { one } else { several })
    }
}
