//! Why a file's name should be looked at twice.

ghost use Rattle.std.specs.Prelude.{◌≡◌, true, false};
ghost use Rattle.sedck_report.specs.Levels.{is_locale};

use crate::bytes::{begins_with_one, has, has_one_of};
use sedck_call::last_part;
use sedck_report::{Code, is_printable};

/// What may be doubtful of a name, in the order of the warnings.
pub(crate) static DOUBTS: &'static [Code] = &[
    Code::StreamName,
    Code::DeviceName,
    Code::AbsoluteName,
    Code::UpwardName,
    Code::UnprintableName,
    Code::BlankAtEnd,
    Code::CommandInName,
    Code::HiddenName,
    Code::MakefileName,
    Code::OptionName,
    Code::ShellByteInName,
    Code::ReadAndWritten,
    Code::SameFile,
    Code::NamesItself,
    Code::WritesItsInput,
];

/// Why such a name should be looked at twice.
pub(crate) fn reason_of(code: Code) -> &'static str {
    match code {
        Code::StreamName =>
            "GNU sed takes it for a stream, and other seds and `--posix` for a file",
        Code::DeviceName => "it may not be a regular file, so reading or writing it may never end",
        Code::AbsoluteName => "it is an absolute path",
        Code::UpwardName =>
            "a part of it is `..`, so it may lead out of the directory where the script runs",
        Code::UnprintableName => "it contains bytes that a terminal may not show",
        Code::BlankAtEnd => "it ends in a space",
        Code::CommandInName =>
            "a name goes on to the end of the line: was a command or a comment meant?",
        Code::HiddenName =>
            "a part of it begins with `.`: such files are hidden, and many of them are settings of programs",
        Code::MakefileName => "`make` runs the commands in a file of this name",
        Code::OptionName => "it begins with `-`, so that other programs take it for an option",
        Code::ShellByteInName =>
            "it has a byte to which a shell gives a meaning, and sed doesn't: quotes, `*`, `$` and the like are part of the name",
        Code::ReadAndWritten => "the script reads it too",
        Code::SameFile => "another name in the script leads to the same file, as `F` and `./F` do",
        Code::WritesItsInput =>
            "the call names this file as an operand, which is emptied before it is read, and then may grow while it is read, without an end",
        _ =>
            "the script's own file has that name, and a sed empties it before it has read the whole script",
    }
}

/// Whether the name is doubtful so by its bytes alone.
pub(crate) fn is_doubtful(code: Code, name: &[u8]) -> bool
    ensures { result ≡ true → is_locale code ≡ false }
{
    match code {
        Code::StreamName => is_one_of(name, STREAMS),
        Code::DeviceName => begins_with_one(name, DEVICE_FOLDERS),
        Code::AbsoluteName => name.starts_with(b"/") && !begins_with_one(name, DEVICE_FOLDERS),
        Code::UpwardName => leads_up(name),
        Code::UnprintableName => name.iter().any(|byte| !is_printable(*byte)),
        Code::BlankAtEnd => name.ends_with(b" "),
        Code::CommandInName => has_one_of(name, ";}#"),
        Code::HiddenName => is_hidden(name),
        Code::MakefileName => is_one_of(last_part(name), MAKEFILES),
        Code::OptionName => name.starts_with(b"-"),
        Code::ShellByteInName => name.starts_with(b"~") || has_one_of(name, "'\"*?[$|`&<>"),
        _ => false,
    }
}

/// Names that some seds take for streams where they are written.
static STREAMS: &'static [&'static str] = &["/dev/stdin", "/dev/stdout", "/dev/stderr"];

/// Names of folders, which hide nothing.
static DOTS: &'static [&'static str] = &[".", ".."];

/// Folders with devices among their files.
static DEVICE_FOLDERS: &'static [&'static str] = &["/dev/", "/proc/", "/sys/"];

/// Files that `make` reads by itself.
static MAKEFILES: &'static [&'static str] = &["Makefile", "makefile", "GNUmakefile"];

fn is_one_of(name: &[u8], names: &[&str]) -> bool {
    for other in names {
        if other.as_bytes() == name {
            return true;
        }
    }
    false
}

/// Whether a part of the name is `..`.
fn leads_up(name: &[u8]) -> bool {
    let is_at_end = name.starts_with(b"../") || name.ends_with(b"/..");
    is_at_end || has(name, "/../") || name == b"..".as_slice()
}

/// Whether a part of the name begins with a `.`, and is no name of a folder.
fn is_hidden(name: &[u8]) -> bool {
    for part in name.split(|byte| *byte == b'/') {
        if part.starts_with(b".") && !is_one_of(part, DOTS) {
            return true;
        }
    }
    false
}
