//! What the arguments ask for.

ghost use Rattle.std.specs.Prelude.{◌≡◌, map, IfOk, option_map};
ghost use Rattle.sedck_explain_cli.specs.Readings.{texts_of};
ghost use Rattle.sedck_explain_cli.specs.Requests.{IsRequest, denied_by, warnings_by, is_denied_code, has_bytes, is_plain, is_plain_name, paths_of};

use crate::format::{Format, NAMES};
use crate::policy::{DENIALS, FIRST_CODE};
use crate::reading::{Reading, is_among, read_words};
use crate::sets::{AUTOCONF, SETS};
use clap::{Arg, ArgAction, ArgMatches, Command, Error};
use sedck_calls_in_files::At;
use sedck_explanation::{Code, Denied, DeniedWarnings, Level};
use sedck_formats::VERSION;
use sedck_found::Assumed;
use sedck_kinds::Kind;
use sedck_plain::Comments;
use std::alloc::{AllocError, Global};

/// What is asked for.
#[derive(Drop)]
pub struct Request<'a> {
    pub format: Format,
    /// The least level of findings that are reported.
    pub least: Level,
    /// Whether the plain spelling of a script has its comments.
    pub comments: Comments,
    /// What a script may not have.
    pub denied: Denied,
    /// The certificate's path.
    pub certificate: Option<&'a str>,
    /// The name of standard input in reports.
    pub stdin_name: &'a str,
    /// Whether the words of a call of sed follow.
    pub sed: bool,
    /// Whether calls of sed in files and folders are explained, and not scripts.
    pub calls: bool,
    /// What those files are taken for.
    pub kind: Option<Kind>,
    /// Values of variables in them.
    pub assumed: Vec<Assumed<'a>>,
    /// Whether commands are read with other delimiters, where they have their own in lists.
    pub mends: bool,
    /// Where the call is whose script is written in its plain spelling.
    pub at: Option<At>,
    /// The scripts' paths, at least one; `-` is standard input. Where the words of a call follow, or calls in files are explained, those
    /// that were given.
    pub scripts: Vec<&'a str>,
}

impl Request<'_> {
    /// The name in reports of the script at the path.
    pub(crate) fn name_of<'b>(&'b self, path: &'b str) -> &'b str {
        if path == "-" { self.stdin_name } else { path }
    }
}

/// What the arguments ask for, or why nothing, in words of `clap`, which reads all of them. What the exit status depends on is
/// read once more, so that no theorem on it rests on `clap`.
pub fn request_of<'a>(alloc: Global, words: &'a [String]) -> Result<Request<'a>, Error>
    ensures { IfOk result (IsRequest (texts_of words.now)) }
{
    let matches = command(alloc)?.try_get_matches_from(words)?;
    let Reading {
        certificate,
        denied,
        allowed,
        locale,
        format,
        sed,
        calls,
        mends,
        paths,
        ..
    } = read_words(alloc, words)?;
    let format = format_of(format);
    Ok(Request {
        format,
        least: level_of(&matches, format, calls),
        comments: comments_of(&matches),
        denied: denied_of(&denied, &allowed, locale),
        certificate,
        stdin_name: matches.get_str("stdin-filename").unwrap_or("-"),
        sed,
        calls,
        kind: kind_of(&matches),
        assumed: assumed_of(alloc, &matches)?,
        mends,
        at: at_of(&matches),
        scripts: scripts_of(paths, sed || calls)?,
    })
}

/// The format of this name, or text.
fn format_of(name: Option<&str>) -> Format
    ensures { is_plain result ≡ is_plain_name (option_map (λ name. name.now) name.entry) }
{
    match name {
        Some(name) => match Format::named(name) {
            Some(format) => format,
            None => Format::Text,
        },
        None => Format::Text,
    }
}

/// The least level of findings that is asked for, or that of the format.
fn level_of(matches: &ArgMatches, format: Format, is_of_calls: bool) -> Level {
    match matches.get_str("level") {
        Some("error") => Level::Error,
        Some("warning") => Level::Warning,
        Some(_) => Level::Note,
        None => format.least(is_of_calls),
    }
}

/// Whether comments are printed: unless the words say that they aren't.
fn comments_of(matches: &ArgMatches) -> Comments {
    if matches.get_flag("no-comments") {
        Comments::LeftOut
    } else {
        Comments::Kept
    }
}

/// The scripts' paths, or that of standard input, unless there may be none.
fn scripts_of<'a>(paths: Vec<&'a str>, may_be_none: bool) -> Result<Vec<&'a str>, AllocError>
    ensures { IfOk result (λ scripts. map (λ path. path.now) scripts.items ≡ paths_of may_be_none (map (λ path. path.now) paths.entry.items)) }
{
    let mut scripts = paths;
    if scripts.is_empty() && !may_be_none {
        scripts.push("-")?;
    }
    Ok(scripts)
}

/// What files are taken for, or none.
fn kind_of(matches: &ArgMatches) -> Option<Kind> {
    Kind::named(matches.get_str("as")?)
}

/// Where the call is that is asked for: `LINE` or `LINE:COLUMN`. What is neither is at line 0, where no call is.
fn at_of(matches: &ArgMatches) -> Option<At> {
    let word = matches.get_str("at")?;
    let (line, column) = match word.split_once(':') {
        Some((line, column)) => (line, Some(column)),
        None => (word, None),
    };
    Some(At {
        line: number_of(line),
        column: column.map(number_of),
    })
}

/// The number, or 0.
fn number_of(word: &str) -> usize {
    word.parse::<usize>().unwrap_or(0)
}

/// The values of variables, and after them those of sets.
fn assumed_of<'a>(alloc: Global, matches: &ArgMatches<'a>) -> Result<Vec<Assumed<'a>>, AllocError> {
    let mut assumed = Vec::new(alloc);
    if let Some(words) = matches.get_strs("assume") {
        for word in words {
            assumed.push(assumed_by(*word))?;
        }
    }
    if matches.get_str("assume-set").is_some() {
        add_set(&mut assumed)?;
    }
    Ok(assumed)
}

/// Adds what the set has; `autoconf` is the only one.
fn add_set(assumed: &mut Vec<Assumed>) -> Result<(), AllocError> {
    for word in AUTOCONF {
        assumed.push(assumed_by(*word))?;
    }
    Ok(())
}

/// What is assumed by the word. What has no `=` is the name of a variable that isn't set.
fn assumed_by(word: &str) -> Assumed<'_> {
    let (name, value) = match word.split_once('=') {
        Some((name, value)) => (name, Some(value.as_bytes())),
        None => (word, None),
    };
    Assumed {
        name: name.as_bytes(),
        value,
    }
}

/// What is denied by these lists of names, and not allowed by those, in the locale of this name.
fn denied_of(lists: &[&str], allowed: &[&str], locale: Option<&str>) -> Denied
    ensures { result ≡ denied_by (map (λ list. list.now) lists.now) (map (λ list. list.now) allowed.now) (option_map (λ name. name.now) locale.entry) }
{
    Denied {
        reads: is_among(lists, b"reads"),
        writes: is_among(lists, b"writes"),
        warnings: warnings_of(lists, allowed),
        unbounded: is_among(lists, b"unbounded"),
        growing: is_among(lists, b"growing"),
        slow: is_among(lists, b"slow"),
        references: is_among(lists, b"references"),
        c_locale: is_c_locale(locale),
    }
}

/// The warnings that are denied by these lists of names, and not allowed by those.
fn warnings_of(denied: &[&str], allowed: &[&str]) -> DeniedWarnings
    ensures { result ≡ warnings_by (map (λ list. list.now) denied.now) (map (λ list. list.now) allowed.now) }
{
    DeniedWarnings {
        options_in_first_line: is_denied_code(denied, allowed, Code::OptionsInFirstLine),
        brace_behind_label: is_denied_code(denied, allowed, Code::BraceBehindLabel),
        looks_extended: is_denied_code(denied, allowed, Code::LooksExtended),
        one_line_text: is_denied_code(denied, allowed, Code::OneLineText),
        silencing_comment: is_denied_code(denied, allowed, Code::SilencingComment),
        locale: is_denied_code(denied, allowed, Code::Locale),
        backslash_in_list: is_denied_code(denied, allowed, Code::BackslashInList),
        class_without_list: is_denied_code(denied, allowed, Code::ClassWithoutList),
        range_in_y: is_denied_code(denied, allowed, Code::RangeInY),
        stream_name: is_denied_code(denied, allowed, Code::StreamName),
        device_name: is_denied_code(denied, allowed, Code::DeviceName),
        absolute_name: is_denied_code(denied, allowed, Code::AbsoluteName),
        upward_name: is_denied_code(denied, allowed, Code::UpwardName),
        unprintable_name: is_denied_code(denied, allowed, Code::UnprintableName),
        blank_at_end: is_denied_code(denied, allowed, Code::BlankAtEnd),
        command_in_name: is_denied_code(denied, allowed, Code::CommandInName),
        hidden_name: is_denied_code(denied, allowed, Code::HiddenName),
        makefile_name: is_denied_code(denied, allowed, Code::MakefileName),
        option_name: is_denied_code(denied, allowed, Code::OptionName),
        shell_byte_in_name: is_denied_code(denied, allowed, Code::ShellByteInName),
        read_and_written: is_denied_code(denied, allowed, Code::ReadAndWritten),
        same_file: is_denied_code(denied, allowed, Code::SameFile),
        names_itself: is_denied_code(denied, allowed, Code::NamesItself),
        writes_its_input: is_denied_code(denied, allowed, Code::WritesItsInput),
        unknown_code: is_denied_code(denied, allowed, Code::UnknownCode),
        in_place: is_denied_code(denied, allowed, Code::InPlace),
        others: is_among(denied, b"warnings"),
    }
}

/// Whether the warnings with this code are denied, by its name or with all, and aren't allowed.
fn is_denied_code(denied: &[&str], allowed: &[&str], code: Code) -> bool
    ensures { result ≡ is_denied_code (map (λ list. list.now) denied.now) (map (λ list. list.now) allowed.now) code }
{
    let name = code.name().as_bytes();
    (is_among(denied, b"warnings") || is_among(denied, name)) && !is_among(allowed, name)
}

/// Whether a character is a byte in the locale of this name.
fn is_c_locale(locale: Option<&str>) -> bool
    ensures { result ≡ has_bytes (option_map (λ name. name.now) locale.entry) }
{
    match locale {
        Some(name) => name == "C" || name == "POSIX",
        None => false,
    }
}

/// The kinds of files, by name.
const KINDS: &[&str] = &["sh", "make", "docker", "yaml", "spec", "m4", "systemd"];

/// The levels, by name.
const LEVELS: &[&str] = &["error", "warning", "note"];

/// What follows an option; the first word is what the help calls it.
#[derive(Clone, Copy)]
enum Takes {
    /// Nothing: it is there or not.
    Nothing,
    Value(&'static str),
    OneOf(&'static str, &'static [&'static str]),
    /// Some denials, from the one at this place on, with commas between, each time that it is given.
    Denials(&'static str, usize),
    /// A value each time that it is given.
    Each(&'static str),
}

/// An option.
struct Choice {
    name: &'static str,
    takes: Takes,
    /// What the help says of it, in lines of at most 70 columns.
    help: &'static str,
}

/// The options, in the order of the help.
static CHOICES: [Choice; 15] = [
    Choice {
        name: "format",
        takes: Takes::OneOf("FORMAT", NAMES),
        help: "How the report is printed [default: text]\n[text, gcc, json, sarif, html, dot, sed]",
    },
    Choice {
        name: "level",
        takes: Takes::OneOf("LEVEL", LEVELS),
        help: "The least level of findings that are reported; the exit status stays\n\
            the same [error, warning, note] [default: note; warning for gcc, and\nfor text without --calls]",
    },
    Choice {
        name: "no-comments",
        takes: Takes::Nothing,
        help: "Leave out the comments of a script, with --format sed",
    },
    Choice {
        name: "cert",
        takes: Takes::Value("CERT"),
        help: "Judge this certificate instead of searching for one; for one script",
    },
    Choice {
        name: "deny",
        takes: Takes::Denials("WHAT", 0),
        help: "What makes an accepted script end with status 1; several have commas\n\
            between, or an option each [reads, writes, warnings, unbounded,\n\
            growing, slow, references]; or the code of a warning",
    },
    Choice {
        name: "allow",
        takes: Takes::Denials("CODE", FIRST_CODE),
        help: "Warnings that --deny leaves alone, by their codes; they are reported\nas ever",
    },
    Choice {
        name: "locale",
        takes: Takes::Value("NAME"),
        help: "The locale in which sed runs: C and POSIX take away the warnings of\nwhat is read otherwise in UTF-8",
    },
    Choice {
        name: "stdin-filename",
        takes: Takes::Value("NAME"),
        help: "The name of standard input in reports [default: -]",
    },
    Choice {
        name: "sed",
        takes: Takes::Nothing,
        help: "Explain a call of sed: the words after `--` are those after its name",
    },
    Choice {
        name: "calls",
        takes: Takes::Nothing,
        help: "Explain the calls of sed in shell scripts, makefiles and other files,\nand below folders",
    },
    Choice {
        name: "as",
        takes: Takes::OneOf("KIND", KINDS),
        help: "What the files of --calls are, where their names don't say\n[sh, make, docker, yaml, spec, m4, systemd]",
    },
    Choice {
        name: "assume",
        takes: Takes::Each("NAME=VALUE"),
        help: "The value of a variable in the files of --calls; without `=` it is\nunset",
    },
    Choice {
        name: "assume-set",
        takes: Takes::OneOf("SET", SETS),
        help: "What holds of the variables in the files of --calls, by the name of\na set [autoconf]",
    },
    Choice {
        name: "mend",
        takes: Takes::Nothing,
        help: "Read commands that have their delimiter in a list as with another one,\nunder a condition",
    },
    Choice {
        name: "at",
        takes: Takes::Value("LINE[:COLUMN]"),
        help: "Which call of the file is meant, with --calls and --format sed",
    },
];

/// The valid arguments.
fn command<'a>(alloc: Global) -> Result<Command<'a>, AllocError> {
    let mut command = described(alloc);
    for choice in &CHOICES {
        command = command.arg(option(alloc, choice)?)?;
    }
    command.arg(scripts(alloc))
}

/// The program, with what its help says of it.
fn described<'a>(alloc: Global) -> Command<'a> {
    Command::new(alloc, "sedck-explain")
        .no_binary_name(true)
        .version(VERSION)
        .about(
            "Says where and why a sed script is refused or may run for ever, which files\nit touches, and what to write instead",
        )
        .after_help(
            "Exit status, of several scripts the worst one:\n  \
             0 accepted\n  1 rejected, a loop, or what --deny names\n  \
             2 a script or a certificate that is refused\n  3 an invalid command line\n  \
             4 a file that can't be read, or a report that can't be written\n  \
             5 a call in a file of which something is unknown before a run; with\n    \
             --mend also what is accepted under a condition",
        )
}

/// The option as `clap` has it. Of several uses the last one counts, or each.
fn option<'a>(alloc: Global, choice: &Choice) -> Result<Arg<'a>, AllocError> {
    let arg = Arg::new(alloc, choice.name)
        .long(choice.name)
        .help(choice.help)
        .next_line_help(true)
        .hide_possible_values(true);
    match choice.takes {
        Takes::Nothing => arg.action(ArgAction::SetTrue).overrides_with(choice.name),
        Takes::Value(value) => arg.value_name(value).overrides_with(choice.name),
        Takes::OneOf(value, names) => arg
            .value_name(value)
            .value_parser(names)
            .overrides_with(choice.name),
        Takes::Denials(value, first) => Ok(
            arg.value_name(value)
                .value_parser(DENIALS.get(first..).unwrap_or(DENIALS))
                .value_delimiter(',')
                .action(ArgAction::Append),
        ),
        Takes::Each(value) => Ok(arg.value_name(value).action(ArgAction::Append)),
    }
}

fn scripts<'a>(alloc: Global) -> Arg<'a> {
    Arg::new(alloc, "script")
        .value_name("SCRIPT")
        .action(ArgAction::Append)
        .num_args(0..)
        .help("Scripts of sed, or with --calls files and folders;\nnone or `-` is standard input")
}
