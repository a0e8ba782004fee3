//! The codes of findings: all that is said of a code by itself.

ghost use Rattle.std.specs.Prelude.{◌≡◌};
ghost use Rattle.std.specs.Str.{bytes_eq};
ghost use Rattle.sedck_report.specs.Codes.{name_of, script_name};

use sedck_bre::ReFault;
use sedck_script::ScriptFault;

/// What a finding is about. No later version gives another meaning to a code.
#[derive(Clone, Copy)]
pub enum Code {
    /// A script that is refused.
    Script(ScriptFault),

    // A certificate that is refused.
    BadHeader,
    BadCount,
    BadNode,
    BadNames,
    BadEnd,

    // A certificate that is rejected.
    WrongCount,
    StartUnranked,
    LeavesRanked,
    NotLowered,
    ReadsDiffer,
    WritesDiffer,

    // A loop.
    LoopIdle,
    LoopGrowing,

    // What is denied.
    DeniedReads,
    DeniedWrites,
    DeniedUnbounded,
    DeniedGrowing,
    DeniedWarnings,
    DeniedSlow,
    DeniedReferences,

    // The format `sed`.
    /// A command that has no plain spelling.
    NoPlainSpelling,

    // Warnings of how the script looks.
    OptionsInFirstLine,
    BraceBehindLabel,
    LooksExtended,
    /// A text on the line of its command.
    OneLineText,
    /// A comment that begins with `n`, by which BusyBox prints nothing by itself.
    SilencingComment,
    /// A byte above 127 where a sed that knows characters reads another script.
    Locale,
    /// A list with an escape, such as `[\t]`, that GNU sed reads as one byte.
    BackslashInList,
    /// A class such as `[:alpha:]` without the list around it.
    ClassWithoutList,
    /// A range in both lists of `y`, which has none.
    RangeInY,

    // Warnings of file names.
    StreamName,
    DeviceName,
    AbsoluteName,
    UpwardName,
    UnprintableName,
    BlankAtEnd,
    CommandInName,
    HiddenName,
    MakefileName,
    OptionName,
    ShellByteInName,
    ReadAndWritten,
    /// Two names for one file, as `F` and `./F`.
    SameFile,
    /// A file that is written has the name of the script's own file.
    NamesItself,
    /// A file that is written is an operand of the call.
    WritesItsInput,

    // Warnings of comments.
    UnknownCode,

    // A call of sed.
    /// Options by which sed reads another language than the one that is judged.
    OtherLanguage,
    /// Words that no sed takes.
    BadCall,
    /// The operands are overwritten.
    InPlace,

    // A call of sed in a file.
    /// A part of the script is unknown before a run.
    OpenHole,
    /// So much of the script is unknown that it can't be judged.
    Unknowable,
    /// The value of a variable is known: the file sets it, or it was given with the call of this program.
    KnownValue,
    /// A part of a file can't be read, so that calls of sed in it are missed.
    NotUnderstood,

    // Notes.
    /// No limit on the steps is known.
    NoBound,
    /// A limit on the steps is known, and none on the lengths of the spaces.
    NoSpaceBound,
    /// Something follows a label on its line, which some seds take for a part of the label.
    LabelToTheLineEnd,
    /// Labels that are alike in the bytes by which POSIX has labels told apart.
    LongLabels,
}

impl Code {
    /// Whether both codes have the same name.
    pub fn is_named_as(self, other: Code) -> bool
        ensures { result ≡ bytes_eq (name_of self) (name_of other) }
    {
        self.name() == other.name()
    }

    /// The name that is printed: in lower case, with hyphens between its words.
    pub fn name(self) -> &'static str
        ensures { result.now ≡ name_of self }
    {
        match self {
            Code::Script(fault) => script_fault_name(fault),
            Code::BadHeader => "bad-header",
            Code::BadCount => "bad-count",
            Code::BadNode => "bad-node",
            Code::BadNames => "bad-names",
            Code::BadEnd => "bad-end",
            Code::WrongCount => "wrong-count",
            Code::StartUnranked => "start-unranked",
            Code::LeavesRanked => "leaves-ranked",
            Code::NotLowered => "not-lowered",
            Code::ReadsDiffer => "reads-differ",
            Code::WritesDiffer => "writes-differ",
            Code::LoopIdle => "loop-idle",
            Code::LoopGrowing => "loop-growing",
            Code::DeniedReads => "denied-reads",
            Code::DeniedWrites => "denied-writes",
            Code::DeniedUnbounded => "denied-unbounded",
            Code::DeniedGrowing => "denied-growing",
            Code::DeniedWarnings => "denied-warnings",
            Code::DeniedSlow => "denied-slow",
            Code::DeniedReferences => "denied-references",
            Code::NoPlainSpelling => "no-plain-spelling",
            Code::OptionsInFirstLine => "options-in-first-line",
            Code::BraceBehindLabel => "brace-behind-label",
            Code::LooksExtended => "looks-extended",
            Code::OneLineText => "one-line-text",
            Code::SilencingComment => "silencing-comment",
            Code::Locale => "locale",
            Code::BackslashInList => "backslash-in-list",
            Code::ClassWithoutList => "class-without-list",
            Code::RangeInY => "range-in-y",
            Code::StreamName => "stream-name",
            Code::DeviceName => "device-name",
            Code::AbsoluteName => "absolute-name",
            Code::UpwardName => "upward-name",
            Code::UnprintableName => "unprintable-name",
            Code::BlankAtEnd => "blank-at-end",
            Code::CommandInName => "command-in-name",
            Code::HiddenName => "hidden-name",
            Code::MakefileName => "makefile-name",
            Code::OptionName => "option-name",
            Code::ShellByteInName => "shell-byte-in-name",
            Code::ReadAndWritten => "read-and-written",
            Code::SameFile => "same-file",
            Code::NamesItself => "names-itself",
            Code::WritesItsInput => "writes-its-input",
            Code::UnknownCode => "unknown-code",
            Code::OtherLanguage => "other-language",
            Code::BadCall => "bad-call",
            Code::InPlace => "in-place",
            Code::OpenHole => "open-hole",
            Code::Unknowable => "unknowable",
            Code::KnownValue => "known-value",
            Code::NotUnderstood => "not-understood",
            Code::NoBound => "no-bound",
            Code::NoSpaceBound => "no-space-bound",
            Code::LabelToTheLineEnd => "label-to-the-line-end",
            Code::LongLabels => "long-labels",
        }
    }

    /// The section that explains it. That of a fault is named as the fault is.
    pub fn page(self) -> Page {
        match self {
            Code::Script(_) => section("FAULTS.md", self.name()),
            Code::BadHeader | Code::BadCount | Code::BadNode | Code::BadNames | Code::BadEnd =>
                section("FAULTS.md", "faults-of-certificates"),
            Code::WrongCount
            | Code::StartUnranked
            | Code::LeavesRanked
            | Code::NotLowered
            | Code::ReadsDiffer
            | Code::WritesDiffer => section("FAULTS.md", "rejections"),
            Code::LoopIdle | Code::LoopGrowing => section("MENDING.md", "repairing-loops"),
            Code::DeniedReads
            | Code::DeniedWrites
            | Code::DeniedUnbounded
            | Code::DeniedGrowing
            | Code::DeniedWarnings => section("TRUST.md", "scripts-of-strangers"),
            Code::DeniedSlow | Code::DeniedReferences => section(
                "TRUST.md",
                "what-a-limit-on-steps-doesnt-limit",
            ),
            Code::NoPlainSpelling => section("GRAMMAR.md", "the-plain-spelling"),
            Code::OptionsInFirstLine | Code::LooksExtended => section(
                "TRUST.md",
                "options-and-the-scripts-first-line",
            ),
            Code::BraceBehindLabel
            | Code::OneLineText
            | Code::SilencingComment
            | Code::BackslashInList
            | Code::ClassWithoutList
            | Code::RangeInY => section("GRAMMAR.md", "what-seds-read-differently"),
            Code::Locale => section("TRUST.md", "the-locale"),
            Code::StreamName
            | Code::AbsoluteName
            | Code::UpwardName
            | Code::UnprintableName
            | Code::BlankAtEnd
            | Code::CommandInName
            | Code::HiddenName
            | Code::MakefileName
            | Code::OptionName
            | Code::ShellByteInName
            | Code::ReadAndWritten
            | Code::SameFile => section("TRUST.md", "names"),
            Code::DeviceName => section("TRUST.md", "devices-pipes-and-links"),
            Code::NamesItself => section("TRUST.md", "the-scripts-own-file"),
            Code::WritesItsInput => section("TRUST.md", "input-and-output"),
            Code::UnknownCode => section("RECIPES.md", "fewer-findings"),
            Code::OtherLanguage => section("CALLS.md", "other-languages"),
            Code::BadCall => section("CALLS.md", "words-that-are-refused"),
            Code::InPlace => section("CALLS.md", "in-place"),
            Code::OpenHole | Code::Unknowable | Code::KnownValue | Code::NotUnderstood => section(
                "CALLS.md",
                "what-is-unknown",
            ),
            Code::NoBound => section("FORMATS.md", "the-line-of-the-bound"),
            Code::NoSpaceBound => section("TRUST.md", "what-the-limits-mean"),
            Code::LabelToTheLineEnd | Code::LongLabels => section(
                "SEDS.md",
                "seds-of-the-bsds-and-macos",
            ),
        }
    }

    /// What is found, in words without a full stop.
    pub fn meaning(self) -> &'static str {
        match self {
            Code::Script(fault) => script_fault_meaning(fault),
            Code::BadHeader => "The first line of the certificate is invalid",
            Code::BadCount => "The line with the number of commands is invalid",
            Code::BadNode => "A line with the ranks of a node is invalid",
            Code::BadNames => "A line with a name, or with the number of names, is invalid",
            Code::BadEnd => "The certificate does not end with the line end",
            Code::WrongCount => "The certificate was made for another number of commands",
            Code::StartUnranked => "A node where a run begins has no ranks",
            Code::LeavesRanked => "A step leads from a node with ranks to one without",
            Code::NotLowered => "A step does not lower the ranks as its kind requires",
            Code::ReadsDiffer => "The files that the script reads are not those of the certificate",
            Code::WritesDiffer =>
                "The files that the script writes are not those of the certificate",
            Code::LoopIdle => "A loop that reads no line and never shortens the pattern space",
            Code::LoopGrowing => "A loop that reads no line and may lengthen the pattern space",
            Code::DeniedReads => "The script reads a file, which is denied",
            Code::DeniedWrites => "The script writes a file, which is denied",
            Code::DeniedUnbounded =>
                "No limit on the steps of the script is known, which is denied",
            Code::DeniedGrowing =>
                "No limit on the lengths of the spaces is known, which is denied",
            Code::DeniedWarnings => "The script has a warning, which is denied",
            Code::DeniedSlow => "The script has what may make a single step slow, which is denied",
            Code::DeniedReferences => "An expression has a reference, which is denied",
            Code::NoPlainSpelling => "A command has no plain spelling",
            Code::OptionsInFirstLine =>
                "The first line gives sed options of which nothing is known",
            Code::BraceBehindLabel =>
                "A } right after a label, which some seds read as a part of it",
            Code::LooksExtended => "Bytes that look like an extended regular expression",
            Code::OneLineText => "A text on the line of its command, which POSIX does not have",
            Code::SilencingComment =>
                "A comment that begins with n, by which BusyBox prints nothing by itself",
            Code::Locale =>
                "Bytes that are part of a character in a locale of UTF-8, where sed then reads another script",
            Code::BackslashInList =>
                "A list with an escape that most seds read as one byte, and POSIX as two",
            Code::ClassWithoutList => "A class without the list around it, which GNU sed refuses",
            Code::RangeInY => "A range in the lists of y, which has none",
            Code::StreamName => "The name of a standard stream, which some seds read as a file",
            Code::DeviceName => "The name of what may be no regular file",
            Code::AbsoluteName => "An absolute path",
            Code::UpwardName => "A path that leads out of the directory where the script runs",
            Code::UnprintableName => "A name with bytes that a terminal may not show",
            Code::BlankAtEnd => "A name that ends in a space",
            Code::CommandInName => "A name that seems to contain a command or a comment",
            Code::HiddenName => "The name of a hidden file",
            Code::MakefileName => "The name of a makefile",
            Code::OptionName => "A name that begins with a hyphen",
            Code::ShellByteInName => "A name with a byte that means something to a shell",
            Code::ReadAndWritten => "The script reads and writes the same file",
            Code::SameFile => "Two names for one file",
            Code::NamesItself => "The script writes a file that has the name of its own",
            Code::WritesItsInput =>
                "The script or the output of its call goes to a file that the call reads",
            Code::UnknownCode =>
                "A comment ignores what is not the code of a warning or a note, or what no comment can ignore",
            Code::OtherLanguage => "Options by which sed reads another language",
            Code::BadCall => "Words that no sed takes",
            Code::InPlace => "The operands are overwritten",
            Code::OpenHole => "A part of the script is not known before a run",
            Code::Unknowable => "Too much of the script is not known before a run",
            Code::KnownValue => "The value of a variable is taken from where the file sets it",
            Code::NotUnderstood => "A part of the file cannot be read",
            Code::NoBound => "Every run ends, but no limit on its steps is known",
            Code::NoSpaceBound =>
                "Every run ends, but no limit on the lengths of the spaces is known",
            Code::LabelToTheLineEnd =>
                "Something follows a label on its line, which some seds read as a part of the label",
            Code::LongLabels => "Two labels that agree in their first 8 bytes",
        }
    }
}

/// A section of a page in the folder `docs`.
#[derive(Clone, Copy, PartialEq, Eq)]
pub struct Page {
    pub file: &'static str,
    /// The section's heading, as a link names it.
    pub heading: &'static str,
}

fn section(file: &'static str, heading: &'static str) -> Page {
    Page { file, heading }
}

/// The name of a script's fault: that of the expression's fault where it is in one.
fn script_fault_name(fault: ScriptFault) -> &'static str
    ensures { result.now ≡ script_name fault }
{
    match fault {
        ScriptFault::BadExpression { fault, .. } => fault.name(),
        fault => fault.name(),
    }
}

/// What is found where a script is refused.
fn script_fault_meaning(fault: ScriptFault) -> &'static str {
    match fault {
        ScriptFault::TooLong { .. } => "The script has more than 1,048,576 bytes",
        ScriptFault::NulByte { .. } => "The script contains a NUL byte",
        ScriptFault::UnknownCommand { .. } => "A byte that is no command",
        ScriptFault::BadAddress { .. } =>
            "No address where one is expected, or an invalid line number",
        ScriptFault::TooManyAddresses { .. } => "More addresses than the command takes",
        ScriptFault::BadExpression { fault, .. } => expression_fault_meaning(fault),
        ScriptFault::Unterminated { .. } => "A delimiter is missing or invalid",
        ScriptFault::BadReplacement { .. } =>
            "An unknown escape in a replacement, or a group that the expression does not have",
        ScriptFault::BadFlag { .. } => "An unknown flag of s, or the same flag twice",
        ScriptFault::BadTransliteration { .. } =>
            "The lists of y differ in length, or one has an unknown escape",
        ScriptFault::MissingText { .. } => "No text after a, i or c",
        ScriptFault::MissingName { .. } => "No file name",
        ScriptFault::BadLabel { .. } => "No label, or a byte that a label cannot have",
        ScriptFault::DuplicateLabel { .. } => "A label is defined twice",
        ScriptFault::UnknownLabel { .. } => "A branch to a label that is not defined",
        ScriptFault::UnopenedBlock { .. } => "A } that closes nothing",
        ScriptFault::UnclosedBlock { .. } => "A { that is not closed",
        ScriptFault::TooDeep { .. } => "A block inside 64 others, or a group inside 32",
        ScriptFault::TooManyCommands { .. } => "More than 4,095 commands",
        ScriptFault::ExtraText { .. } =>
            "Unexpected text after a command, or a byte there that seds read differently",
        ScriptFault::NoPreviousExpression { .. } =>
            "An empty expression in a script that has no other",
        ScriptFault::EscapedDelimiter { .. } =>
            "A backslash before a delimiter that cannot be escaped",
        ScriptFault::OutOfMemory => OUT_OF_MEMORY,
    }
}

/// What is found where an expression is refused.
fn expression_fault_meaning(fault: ReFault) -> &'static str {
    match fault {
        ReFault::TrailingBackslash { .. } => "An expression ends in a lone backslash",
        ReFault::BadEscape { .. } => "An escape that POSIX does not define in an expression",
        ReFault::UnclosedBracket { .. } =>
            "A bracket list, or a class in one, is not closed before the delimiter",
        ReFault::BadBracket { .. } => "An invalid range, class or hyphen in a bracket list",
        ReFault::EmptySet { .. } => "A bracket list that matches nothing",
        ReFault::UnclosedGroup { .. } => "A group that is not closed",
        ReFault::UnopenedGroup { .. } => "The end of a group that is not open",
        ReFault::BadInterval { .. } => "An invalid interval, or one with a number above 255",
        ReFault::NothingToRepeat { .. } => "Nothing before an interval that it could repeat",
        ReFault::DoubleRepeat { .. } => "What is already repeated is repeated again",
        ReFault::BadReference { .. } => "A reference to a group that is not closed before it",
        ReFault::TooDeep { .. } => "A block inside 64 others, or a group inside 32",
        ReFault::TooManyGroups { .. } => "More than 99 groups in an expression",
        ReFault::OutOfMemory => OUT_OF_MEMORY,
    }
}

/// No finding says so.
const OUT_OF_MEMORY: &str = "Memory ran out";
