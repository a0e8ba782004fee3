//! The kinds of files that have shell text.

use crate::words::{is, is_word_of, named, split_last, split_word};

/// A kind of files that have shell text.
#[derive(Clone, Copy, PartialEq, Eq)]
pub enum Kind {
    /// Shell scripts, and scripts of Debian's packages.
    Shell,
    /// Makefiles: recipes, and `$(shell ..)`.
    Make,
    /// Dockerfiles: `RUN`.
    Docker,
    /// Files of continuous integration in YAML: `run:`, `script:` and the like.
    Yaml,
    /// Spec files of RPM: the sections that are shell text.
    Spec,
    /// Sources of Autoconf: shell text with macros of M4.
    Autoconf,
    /// Units of systemd: `ExecStart=` and the like.
    Systemd,
}

impl Kind {
    /// The kind with this name on the command line: sh, make, docker, yaml, spec, m4 or systemd.
    pub fn named(name: &str) -> Option<Kind> {
        named(LANGUAGES, name.as_bytes())
    }
}

/// Kinds with the names that mean them.
type Names = &'static [(Kind, &'static str)];

/// The names of kinds on the command line.
static LANGUAGES: Names = &[
    (Kind::Shell, "sh"),
    (Kind::Make, "make"),
    (Kind::Docker, "docker"),
    (Kind::Yaml, "yaml"),
    (Kind::Spec, "spec"),
    (Kind::Autoconf, "m4"),
    (Kind::Systemd, "systemd"),
];

/// Names of files, or what is after the last dot of one. The scripts are those of Debian's packages but for one.
static NAMES: Names = &[
    (Kind::Shell, "preinst postinst prerm postrm configure"),
    (Kind::Make, "Makefile makefile GNUmakefile Kbuild"),
    (Kind::Make, "Make-in Makevars"),
    (Kind::Docker, "Dockerfile dockerfile Containerfile"),
];

/// What is after the last dot of a name.
static SUFFIXES: Names = &[
    (Kind::Shell, "sh bash ksh dash bats"),
    (Kind::Make, "mk mak make am"),
    (Kind::Yaml, "yml yaml"),
    (Kind::Autoconf, "ac m4"),
    (Kind::Spec, "spec"),
    (Kind::Systemd, "service"),
];

/// What may be before a dot, whatever is after it.
static STEMS: Names = &[
    (Kind::Make, "Makefile makefile GNUmakefile Kbuild"),
    (Kind::Make, "Makevars Rules"),
    (Kind::Docker, "Dockerfile"),
];

/// What is after the last dot of files in other languages, and of those that are no text: `Makefile.PL` is a script of Perl's.
const OTHERS: &str = "PL pl pm py rb js ts java c h cc cpp hs html xml json md \
    gz bz2 xz lz lzma lz4 zst Z zip tgz 7z o a so obj lo elc pyc gmo mo pdf png";

/// What may be before `.m4` in a source of Autoconf, after another dot.
const BEFORE_M4: &str = "ac in sh";

/// Names of programs. Shells are there also as they are named when a package is configured.
static PROGRAMS: Names = &[
    (Kind::Shell, "sh bash dash ksh ksh93 mksh zsh ash bats"),
    (Kind::Shell, "@SHELL@ @BASH@ @POSIX_SHELL@ @SH@"),
    (Kind::Make, "make gmake bmake"),
];

/// Names of shells that read `$'..'`.
const DOLLAR_QUOTING: &str = "bash @BASH@ ksh ksh93 mksh zsh bats";

/// The most words of a first line that are read.
const MOST_WORDS: usize = 8;

/// The kind of a file with this path and these bytes, where it is known by its name or its first line. A shell or make in the first line
/// says more than the name of a script or a makefile.
pub fn kind_of(path: &str, bytes: &[u8]) -> Option<Kind> {
    let (folders, name) = split_last(path.as_bytes(), b'/');
    let by_name = whole_kind(without_path(folders), name).or(part_kind(name));
    let by_line = interpreter_kind(bytes);
    match by_name {
        Some(Kind::Shell) if bytes.starts_with(b"#!") => by_line,
        Some(Kind::Make) | None => by_line.or(by_name),
        _ => by_name,
    }
}

/// The name of the shell that runs a file with this path and these bytes: by its first line, or by the end of its name where it has none with
/// an interpreter.
pub fn shell_of<'a>(path: &'a str, bytes: &'a [u8]) -> &'a [u8] {
    if bytes.starts_with(b"#!") {
        return interpreter(bytes).unwrap_or(&[]);
    }
    let path = path.as_bytes();
    let (stem, last) = split_last(path.strip_suffix(b".in").unwrap_or(path), b'.');
    if stem.is_empty() { &[] } else { last }
}

/// Whether the shell of this name reads `$'..'`. A plain `sh` needn't read it.
pub fn is_dollar_quoting(name: &[u8]) -> bool {
    is_word_of(name, DOLLAR_QUOTING)
}

/// Whether the first line of a file with these bytes names a sed, whose script the file is then.
pub fn is_run_by_sed(bytes: &[u8]) -> bool {
    interpreter(bytes).is_some_and(|name| is_word_of(name, "sed gsed ssed"))
}

/// The name after the path to it.
fn without_path(path: &[u8]) -> &[u8] {
    split_last(path, b'/').1
}

/// The kind that the whole name of a file means, perhaps in this folder alone.
fn whole_kind(folder: &[u8], name: &[u8]) -> Option<Kind> {
    if is(name, "configure.in") {
        return Some(Kind::Autoconf);
    }
    let is_package = is_word_of(folder, "debian DEBIAN");
    if is_word_of(name, "config.status config.status.in")
        || (is_package && is_word_of(name, "config config.in"))
    {
        return Some(Kind::Shell);
    }
    let is_rules = is(folder, "debian") && is_word_of(name, "rules rules.in");
    let is_makefile = is_rules || (is(folder, "po") && name.starts_with(b"Rules-"));
    is_makefile.then_some(Kind::Make)
}

/// The kind by a part of the file's name, from which `.in` is taken off.
fn part_kind(name: &[u8]) -> Option<Kind> {
    let (stem, last) = split_last(name.strip_suffix(b".in").unwrap_or(name), b'.');
    match named(NAMES, last) {
        None if !stem.is_empty() => dotted_kind(stem, last),
        found => found,
    }
}

/// The kind by what is before the last dot of the name, and what is after it.
fn dotted_kind(stem: &[u8], last: &[u8]) -> Option<Kind> {
    let (before, first) = split_last(stem, b'.');
    match named(STEMS, first) {
        Some(_) if is_word_of(last, OTHERS) => None,
        Some(kind) if before.is_empty() => Some(kind),
        _ if is(last, "m4") && is_other_language(before, first) => None,
        _ => named(SUFFIXES, last),
    }
}

/// Whether a text with macros of M4 may be of another language, as `a.html.m4`, but `a-2.0.m4` has a version in its name.
fn is_other_language(before: &[u8], first: &[u8]) -> bool {
    let is_lettered = matches!(first.first(), Some(byte) if byte.is_ascii_alphabetic());
    is_lettered && !before.is_empty() && !is_word_of(first, BEFORE_M4)
}

/// The kind by the first line, which names an interpreter after `#!`. A text of Python's may be on the second one, where a shell reads a
/// command.
fn interpreter_kind(bytes: &[u8]) -> Option<Kind> {
    let kind = named(PROGRAMS, interpreter(bytes)?);
    let next = bytes
        .get(first_line(bytes).len()..)
        .unwrap_or(&[])
        .trim_ascii_start();
    let is_python = next.starts_with(b"'''") || next.starts_with(b"\"\"\"");
    kind.filter(|_| !is_python)
}

/// The name of the interpreter in the first line, without the path to it.
fn interpreter(bytes: &[u8]) -> Option<&[u8]> {
    Some(program_of(first_line(bytes.strip_prefix(b"#!")?)))
}

/// The bytes before the first newline or carriage return.
fn first_line(bytes: &[u8]) -> &[u8] {
    let end = bytes.iter().position(|byte| b"\n\r".contains(byte));
    end.and_then(|end| bytes.get(..end)).unwrap_or(bytes)
}

/// The name of the program that the words run, without the path to it; nothing where there is none among the first eight.
fn program_of(words: &[u8]) -> &[u8] {
    let mut rest = words;
    for _ in 0..MOST_WORDS {
        let (word, behind) = split_word(rest);
        if !is_passed(word) {
            return without_path(word);
        }
        rest = behind;
    }
    &[]
}

/// Whether the word of a first line isn't the interpreter's: a program that runs the next one, an option, or an assignment.
fn is_passed(word: &[u8]) -> bool {
    let name = without_path(word);
    is_word_of(name, "env busybox") || name.starts_with(b"-") || name.contains(&b'=')
}
