//! JSON as it is written, member by member. What is nested in what is said by those who write it.

ghost use Rattle.std.specs.Prelude.{IfOk};
ghost use Rattle.std.specs.Str.{IsAscii};
ghost use Rattle.sedck_report.specs.Ascii.{IsPrintableLine};

use json::Writer;
use sedck_answer::Status;
use sedck_report::ascii_line;
use std::alloc::{AllocError, Global};
use std::str;

/// What has been written of an object. That memory was refused for a part is told at the end alone, where nothing is handed out then.
#[derive(Drop)]
pub(crate) struct Json {
    alloc: Global,
    out: Writer,
    is_refused: bool,
}

impl Json {
    /// Nothing yet.
    pub(crate) fn new(alloc: Global) -> Json {
        Json {
            alloc,
            out: Writer::new(Vec::new(alloc)),
            is_refused: false,
        }
    }

    /// All that was written, on a line in ASCII.
    pub(crate) fn finished(self) -> Result<Vec<u8>, AllocError>
        ensures ascii { IfOk result (λ line. IsAscii line.items) }
        ensures line { IfOk result (λ line. IsPrintableLine line.items) }
    {
        let Json {
            alloc,
            out,
            is_refused,
        } = self;
        let bytes = out.into_inner();
        match str::from_utf8(&bytes) {
            Ok(text) if !is_refused => ascii_line(alloc, text),
            _ => Err(AllocError),
        }
    }

    /// What the parts are made with.
    pub(crate) fn alloc(&self) -> Global {
        self.alloc
    }

    /// Notes whether memory was refused.
    fn note(&mut self, is_refused: bool) -> &mut Json {
        self.is_refused = self.is_refused || is_refused;
        self
    }

    /// Adds a member that is a text.
    pub(crate) fn text(&mut self, key: &str, value: &str) -> &mut Json {
        let is_refused = self.out.key(key).is_err() || self.out.string(value).is_err();
        self.note(is_refused)
    }

    /// Adds a member that is a text, or null.
    pub(crate) fn text_or_null(&mut self, key: &str, value: Option<&str>) -> &mut Json {
        match value {
            Some(value) => self.text(key, value),
            None => self.null(key),
        }
    }

    /// Adds a member that is a text which was put together, unless memory was refused for it.
    pub(crate) fn words(&mut self, key: &str, words: Result<String, AllocError>) -> &mut Json {
        match words {
            Ok(words) => self.text(key, words.as_str()),
            Err(_) => self.note(true),
        }
    }

    /// Adds a member that is an object of a text alone.
    pub(crate) fn message(&mut self, key: &str, words: &str) -> &mut Json {
        self.object(key).text("text", words).close("}")
    }

    /// Adds a member that is a number.
    pub(crate) fn number(&mut self, key: &str, value: u64) -> &mut Json {
        let is_refused = self.out.key(key).is_err() || self.out.u64(value).is_err();
        self.note(is_refused)
    }

    /// Adds the exit status.
    pub(crate) fn status(&mut self, status: Status) -> &mut Json {
        self.number("status", u64::from(status.code()))
    }

    /// Adds a member that is true or false.
    pub(crate) fn boolean(&mut self, key: &str, value: bool) -> &mut Json {
        let is_refused = self.out.key(key).is_err() || self.out.boolean(value).is_err();
        self.note(is_refused)
    }

    /// Adds a member that is null.
    pub(crate) fn null(&mut self, key: &str) -> &mut Json {
        let is_refused = self.out.key(key).is_err() || self.out.null().is_err();
        self.note(is_refused)
    }

    /// Adds an item of a list.
    pub(crate) fn item(&mut self, value: &str) -> &mut Json {
        let is_refused = self.out.string(value).is_err();
        self.note(is_refused)
    }

    /// Begins an object.
    pub(crate) fn open(&mut self) -> &mut Json {
        let is_refused = self.out.begin_object().is_err();
        self.note(is_refused)
    }

    /// Begins a member that is an object.
    pub(crate) fn object(&mut self, key: &str) -> &mut Json {
        let is_refused = self.out.key(key).is_err();
        self.note(is_refused).open()
    }

    /// Begins a member that is a list.
    pub(crate) fn list(&mut self, key: &str) -> &mut Json {
        let is_refused = self.out.key(key).is_err() || self.out.begin_array().is_err();
        self.note(is_refused)
    }

    /// Ends what was begun: an object for each `}`, and a list for each `]`.
    pub(crate) fn close(&mut self, ends: &str) -> &mut Json {
        for end in ends.chars() {
            let ended = match end {
                '}' => self.out.end_object(),
                _ => self.out.end_array(),
            };
            self.note(ended.is_err());
        }
        self
    }
}
