//! What the words ask for, as far as the exit status depends on it: which option each word is, or whose value, and the paths.
//!
//! `clap` has read the words before, and refuses what isn't valid: so each word is read alone here, and no theorem rests on `clap`.

ghost use Rattle.std.specs.Prelude.{◌≡◌, IfOk, OnOk, map, option_map};
ghost use Rattle.std.specs.List.{list_any};
ghost use Rattle.sedck_explain_cli.specs.Readings.{texts_of, after, after_any, after_word, behind, is_option as is_option_text, read, is_named, is_among};
ghost use Rattle.sedck_explain_cli.specs.Private.Readings.{asked_of};

use std::alloc::{AllocError, Global};

/// What the words so far ask for.
#[derive(Drop)]
pub(crate) struct Reading<'a> {
    pub(crate) certificate: Option<&'a str>,
    /// What is denied: of each use of the option the names, with commas between.
    pub(crate) denied: Vec<&'a str>,
    /// What is allowed of it, likewise.
    pub(crate) allowed: Vec<&'a str>,
    /// The name of the locale in which sed runs.
    pub(crate) locale: Option<&'a str>,
    /// The name of the format.
    pub(crate) format: Option<&'a str>,
    pub(crate) sed: bool,
    pub(crate) calls: bool,
    pub(crate) mends: bool,
    pub(crate) paths: Vec<&'a str>,
    pub(crate) next: Next,
}

/// What the next word is.
#[derive(Clone, Copy)]
pub(crate) enum Next {
    /// An option, or a path.
    Any,
    /// The certificate's path.
    Certificate,
    /// What is denied.
    Denied,
    /// What is allowed.
    Allowed,
    /// The name of the locale.
    Locale,
    /// The name of the format.
    Format,
    /// The value of an option on which the status doesn't depend.
    Other,
    /// A path, whatever it begins with.
    Path,
}

/// What the words ask for.
pub(crate) fn read_words<'a>(alloc: Global, words: &'a [String]) -> Result<Reading<'a>, AllocError>
    ensures { IfOk result (λ reading. asked_of reading ≡ read (texts_of words.now)) }
{
    let mut reading = Reading {
        certificate: None,
        denied: Vec::new(alloc),
        allowed: Vec::new(alloc),
        locale: None,
        format: None,
        sed: false,
        calls: false,
        mends: false,
        paths: Vec::new(alloc),
        next: Next::Any,
    };
    for word in words {
        reading.add(word)?;
    }
    Ok(reading)
}

impl<'a> Reading<'a> {
    /// Reads one word more.
    fn add(&mut self, word: &'a str) -> Result<(), AllocError>
        ensures { OnOk result (asked_of self.new ≡ after (asked_of self.old) word.entry.now) }
    {
        match self.next {
            Next::Any => return self.add_any(word),
            Next::Certificate => self.certificate = Some(word),
            Next::Denied => self.denied.push(word)?,
            Next::Allowed => self.allowed.push(word)?,
            Next::Locale => self.locale = Some(word),
            Next::Format => self.format = Some(word),
            Next::Other => {}
            Next::Path => return Ok(self.paths.push(word)?),
        }
        self.next = Next::Any;
        Ok(())
    }

    /// Reads a word that is no option's value.
    fn add_any(&mut self, word: &'a str) -> Result<(), AllocError>
        ensures { OnOk result (asked_of self.new ≡ after_any (asked_of self.old) word.entry.now) }
    {
        if let Some(path) = rest_behind("--cert=", word) {
            self.certificate = Some(path);
        } else if let Some(names) = rest_behind("--deny=", word) {
            self.denied.push(names)?;
        } else if let Some(names) = rest_behind("--allow=", word) {
            self.allowed.push(names)?;
        } else if let Some(name) = rest_behind("--locale=", word) {
            self.locale = Some(name);
        } else if let Some(name) = rest_behind("--format=", word) {
            self.format = Some(name);
        } else {
            return self.add_whole(word);
        }
        Ok(())
    }

    /// Reads a word with no value in it.
    fn add_whole(&mut self, word: &'a str) -> Result<(), AllocError>
        ensures { OnOk result (asked_of self.new ≡ after_word (asked_of self.old) word.entry.now) }
    {
        match word {
            "--cert" => self.next = Next::Certificate,
            "--deny" => self.next = Next::Denied,
            "--allow" => self.next = Next::Allowed,
            "--locale" => self.next = Next::Locale,
            "--format" => self.next = Next::Format,
            "--sed" => self.sed = true,
            "--calls" => self.calls = true,
            "--mend" => self.mends = true,
            "--" => self.next = Next::Path,
            "--level" | "--stdin-filename" | "--as" | "--assume" | "--at" | "--assume-set" => {
                self.next = Next::Other
            }
            _ => {
                if !is_option(word) {
                    self.paths.push(word)?;
                }
            }
        }
        Ok(())
    }
}

/// What follows the prefix, if the word begins with it.
fn rest_behind<'a>(prefix: &str, word: &'a str) -> Option<&'a str>
    ensures { option_map (λ rest. rest.now) result ≡ behind prefix.now word.entry.now }
{
    word.strip_prefix(prefix)
}

/// Whether the word begins with a hyphen, and isn't just one.
fn is_option(word: &str) -> bool
    ensures { result ≡ is_option_text word.now }
{
    matches!(word.as_bytes(), [b'-', _, ..])
}

/// Whether this is one of the names of some of the lists.
pub(crate) fn is_among(lists: &[&str], name: &[u8]) -> bool
    ensures { result ≡ is_among (map (λ list. list.now) lists.now) name.now }
{
    any_names(lists, name)
}

/// The same, said of the lists as they are borrowed.
fn any_names(lists: &[&str], name: &[u8]) -> bool
    ensures { result ≡ list_any (λ list. is_named list.now name.now) lists.now }
{
    lists.iter().any(|list| names(list.as_bytes(), name))
}

/// Whether this is one of the names, which have commas between.
fn names(list: &[u8], name: &[u8]) -> bool
    ensures { result ≡ is_named list.now name.now }
{
    let mut start = 0;
    for at in 0..list.len() {
        if list[at] == b',' {
            if &list[start..at] == name {
                return true;
            }
            start = at + 1;
        }
    }
    &list[start..] == name
}
