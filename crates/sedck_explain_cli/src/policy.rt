//! The words of a policy: what a caller may deny, and allow again.

/// What a script may be denied, by name: what it does, and then the codes of warnings, which may be allowed again.
pub(crate) const DENIALS: &[&str] = &[
    "reads",
    "writes",
    "warnings",
    "unbounded",
    "growing",
    "slow",
    "references",
    "options-in-first-line",
    "brace-behind-label",
    "looks-extended",
    "one-line-text",
    "silencing-comment",
    "locale",
    "backslash-in-list",
    "class-without-list",
    "range-in-y",
    "stream-name",
    "device-name",
    "absolute-name",
    "upward-name",
    "unprintable-name",
    "blank-at-end",
    "command-in-name",
    "hidden-name",
    "makefile-name",
    "option-name",
    "shell-byte-in-name",
    "read-and-written",
    "same-file",
    "names-itself",
    "writes-its-input",
    "unknown-code",
    "in-place",
];

/// The place of the first code among them.
pub(crate) const FIRST_CODE: usize = 7;
