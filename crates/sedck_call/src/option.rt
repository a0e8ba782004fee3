//! The options of seds.

ghost use Rattle.std.specs.Prelude.{◌≡◌};
ghost use Rattle.sedck_call.specs.Options.{taken_by, short_option, long_option, script_option, line_option, reading_option, output_option};

use crate::names::abbreviates;

/// An option of a sed, however it is spelled.
#[derive(Clone, Copy)]
pub enum CallOption {
    /// `-n`: lines are printed by commands alone.
    Quiet,
    /// `-e`: a text of the script.
    Expression,
    /// `-f`: a file of the script.
    File,
    /// `-E` and `-r`: extended regular expressions.
    Extended,
    /// `-i`: the operands are overwritten.
    InPlace,
    /// `-I` of the BSDs: the same, with a suffix for the old files.
    InPlaceSuffix,
    /// `-s`: each operand is an input of its own.
    Separate,
    /// `-z`: lines end with a byte 0.
    NullData,
    /// `-u`: no more is read than is needed.
    Unbuffered,
    /// `-l`: where the command `l` folds lines.
    LineLength,
    /// `-b`: carriage returns stay.
    Binary,
    /// `-a` of the BSDs: files are made when they are first written.
    Delayed,
    /// `--posix`: no extensions.
    Posix,
    /// `--sandbox`: scripts that read or write files are refused.
    Sandbox,
    /// `--debug`: each step is printed.
    Debug,
    /// `--follow-symlinks`: `-i` overwrites what links lead to.
    FollowLinks,
    /// `--help`: no script runs.
    Help,
    /// `--version`: no script runs.
    Version,
}

/// What an option takes.
#[derive(Clone, Copy, PartialEq, Eq)]
pub enum Taken {
    Nothing,
    /// The rest of its word or, where it has none, the next word.
    Argument,
    /// The rest of its word, if it has one.
    Suffix,
}

impl CallOption {
    /// What the option takes.
    pub fn taken(self) -> Taken
        ensures { result ≡ taken_by self }
    {
        match self {
            CallOption::Expression
            | CallOption::File
            | CallOption::InPlaceSuffix
            | CallOption::LineLength => Taken::Argument,
            CallOption::InPlace => Taken::Suffix,
            _ => Taken::Nothing,
        }
    }

    /// The option of this letter.
    pub fn of_letter(letter: u8) -> Option<CallOption>
        ensures { result ≡ short_option letter }
    {
        match letter {
            b'n' => Some(CallOption::Quiet),
            b'e' => Some(CallOption::Expression),
            b'f' => Some(CallOption::File),
            b'E' | b'r' => Some(CallOption::Extended),
            b'i' => Some(CallOption::InPlace),
            b'I' => Some(CallOption::InPlaceSuffix),
            b's' => Some(CallOption::Separate),
            b'z' => Some(CallOption::NullData),
            b'u' => Some(CallOption::Unbuffered),
            b'l' => Some(CallOption::LineLength),
            b'b' => Some(CallOption::Binary),
            b'a' => Some(CallOption::Delayed),
            _ => None,
        }
    }

    /// The option of this name, or of a beginning that no other name has.
    pub fn of_name(name: &[u8]) -> Option<CallOption>
        ensures { result ≡ long_option name.now }
    {
        if let Some(option) = of_script(name) {
            return Some(option);
        }
        if let Some(option) = of_lines(name) {
            return Some(option);
        }
        if let Some(option) = of_reading(name) {
            return Some(option);
        }
        of_output(name)
    }
}

/// The options of the script and of the files.
fn of_script(name: &[u8]) -> Option<CallOption>
    ensures { result ≡ script_option name.now }
{
    if abbreviates(name, b"expression", 1) {
        Some(CallOption::Expression)
    } else if abbreviates(name, b"file", 2) {
        Some(CallOption::File)
    } else if abbreviates(name, b"in-place", 1) {
        Some(CallOption::InPlace)
    } else if abbreviates(name, b"follow-symlinks", 2) {
        Some(CallOption::FollowLinks)
    } else if abbreviates(name, b"help", 1) {
        Some(CallOption::Help)
    } else if abbreviates(name, b"version", 1) {
        Some(CallOption::Version)
    } else {
        None
    }
}

/// The options of lines.
fn of_lines(name: &[u8]) -> Option<CallOption>
    ensures { result ≡ line_option name.now }
{
    if abbreviates(name, b"quiet", 1) {
        Some(CallOption::Quiet)
    } else if abbreviates(name, b"silent", 2) {
        Some(CallOption::Quiet)
    } else if abbreviates(name, b"separate", 2) {
        Some(CallOption::Separate)
    } else if abbreviates(name, b"null-data", 1) {
        Some(CallOption::NullData)
    } else if abbreviates(name, b"zero-terminated", 1) {
        Some(CallOption::NullData)
    } else {
        None
    }
}

/// The options of how a script is read.
fn of_reading(name: &[u8]) -> Option<CallOption>
    ensures { result ≡ reading_option name.now }
{
    if abbreviates(name, b"regexp-extended", 1) {
        Some(CallOption::Extended)
    } else if abbreviates(name, b"posix", 1) {
        Some(CallOption::Posix)
    } else if abbreviates(name, b"sandbox", 2) {
        Some(CallOption::Sandbox)
    } else if abbreviates(name, b"debug", 1) {
        Some(CallOption::Debug)
    } else {
        None
    }
}

/// The options of the output.
fn of_output(name: &[u8]) -> Option<CallOption>
    ensures { result ≡ output_option name.now }
{
    if abbreviates(name, b"unbuffered", 1) {
        Some(CallOption::Unbuffered)
    } else if abbreviates(name, b"binary", 1) {
        Some(CallOption::Binary)
    } else if abbreviates(name, b"line-length", 1) {
        Some(CallOption::LineLength)
    } else {
        None
    }
}
