//! Which warnings are denied.

ghost use Rattle.std.specs.Prelude.{◌≡◌, ◌&&◌};
ghost use Rattle.sedck_report.specs.Levels.{is_warning, warns_of};
ghost use Rattle.sedck_errors.specs.Denials.{denies};

use sedck_report::{Code, Finding};

/// Which warnings are denied, by their codes.
#[derive(Clone, Copy, PartialEq, Eq)]
pub struct DeniedWarnings {
    pub options_in_first_line: bool,
    pub brace_behind_label: bool,
    pub looks_extended: bool,
    pub one_line_text: bool,
    pub silencing_comment: bool,
    pub locale: bool,
    pub backslash_in_list: bool,
    pub class_without_list: bool,
    pub range_in_y: bool,
    pub stream_name: bool,
    pub device_name: bool,
    pub absolute_name: bool,
    pub upward_name: bool,
    pub unprintable_name: bool,
    pub blank_at_end: bool,
    pub command_in_name: bool,
    pub hidden_name: bool,
    pub makefile_name: bool,
    pub option_name: bool,
    pub shell_byte_in_name: bool,
    pub read_and_written: bool,
    pub same_file: bool,
    pub names_itself: bool,
    pub writes_its_input: bool,
    pub unknown_code: bool,
    pub in_place: bool,
    /// Each that isn't named here: so it is where all are denied.
    pub others: bool,
}

impl DeniedWarnings {
    /// All are allowed.
    pub const NONE: DeniedWarnings = DeniedWarnings {
        options_in_first_line: false,
        brace_behind_label: false,
        looks_extended: false,
        one_line_text: false,
        silencing_comment: false,
        locale: false,
        backslash_in_list: false,
        class_without_list: false,
        range_in_y: false,
        stream_name: false,
        device_name: false,
        absolute_name: false,
        upward_name: false,
        unprintable_name: false,
        blank_at_end: false,
        command_in_name: false,
        hidden_name: false,
        makefile_name: false,
        option_name: false,
        shell_byte_in_name: false,
        read_and_written: false,
        same_file: false,
        names_itself: false,
        writes_its_input: false,
        unknown_code: false,
        in_place: false,
        others: false,
    };

    /// Whether those with this code are denied.
    pub fn denies(self, code: Code) -> bool
        ensures { result ≡ denies self code }
    {
        match code {
            Code::OptionsInFirstLine => self.options_in_first_line,
            Code::BraceBehindLabel => self.brace_behind_label,
            Code::LooksExtended => self.looks_extended,
            Code::OneLineText => self.one_line_text,
            Code::SilencingComment => self.silencing_comment,
            Code::Locale => self.locale,
            Code::BackslashInList => self.backslash_in_list,
            Code::ClassWithoutList => self.class_without_list,
            Code::RangeInY => self.range_in_y,
            Code::StreamName => self.stream_name,
            Code::DeviceName => self.device_name,
            Code::AbsoluteName => self.absolute_name,
            Code::UpwardName => self.upward_name,
            Code::UnprintableName => self.unprintable_name,
            Code::BlankAtEnd => self.blank_at_end,
            Code::CommandInName => self.command_in_name,
            Code::HiddenName => self.hidden_name,
            Code::MakefileName => self.makefile_name,
            Code::OptionName => self.option_name,
            Code::ShellByteInName => self.shell_byte_in_name,
            Code::ReadAndWritten => self.read_and_written,
            Code::SameFile => self.same_file,
            Code::NamesItself => self.names_itself,
            Code::WritesItsInput => self.writes_its_input,
            Code::UnknownCode => self.unknown_code,
            Code::InPlace => self.in_place,
            _ => self.others,
        }
    }
}

/// Whether it is a warning that is denied.
pub(crate) fn is_denied(finding: &Finding, denied: DeniedWarnings) -> bool
    ensures { result ≡ (is_warning finding.now.level && denies denied finding.now.code) }
{
    finding.is_warning() && denied.denies(finding.code)
}

/// Whether one of the findings is a warning that is denied.
pub fn any_denied(findings: &[Finding], denied: DeniedWarnings) -> bool
    ensures { result ≡ warns_of (denies denied) findings.now }
{
    findings.iter().any(|finding| is_denied(finding, denied))
}
