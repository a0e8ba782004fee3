//! The sections of pages that explain findings.

use sedck_report::{Finding, Page};
use std::alloc::{AllocError, Global};

/// The section that the finding's hint is about, or else that of its code.
pub fn page_of(finding: &Finding) -> Page {
    let hint = finding.hint.unwrap_or("");
    for row in SECTIONS.lines() {
        if let Some((section, start)) = row.split_once(' ')
            && hint.as_bytes().starts_with(start.as_bytes())
            && let Some((file, heading)) = section.split_once('#')
        {
            return Page { file, heading };
        }
    }
    finding.code.page()
}

/// The section as a link from the folder `docs` names it.
pub fn page_words(alloc: Global, page: Page) -> Result<String, AllocError> {
    let Page { file, heading } = page;
    format!(in alloc; "{file}#{heading}")
}

/// A row for each section that shows what a hint says: the section, and how the hint begins. Of two rows for a hint the first one counts.
static SECTIONS: &str = "\
MENDING.md#joining-lines make each round read a line
MENDING.md#waiting-for-a-line branch only where a line was read
MENDING.md#padding-a-line if the loop makes a line as long as it should be
MENDING.md#reversing-a-line each round may copy what it matches
MENDING.md#folding-lines `D` starts again without reading a line: if the `s` splits a line
MENDING.md#substituting-until-nothing-changes write one `s` with the flag `g`
MENDING.md#a-loop-with-fuel repeat the command as often as it may be needed, and then write `t c` and `:c`, since the loop leaves the flag of `t` unset; or
MENDING.md#carrying-a-digit repeat the command as often as it may be needed, and then
MENDING.md#commas-in-numbers for commas in numbers
FAULTS.md#unknown-command for `0~3d`
FAULTS.md#bad-address-steps-of-lines for `0~3p`
FAULTS.md#unknown-command-the-command-t for `T end`
FAULTS.md#unknown-command-the-command-z for `z`
FAULTS.md#unknown-command-the-command-q for `/x/Q`
FAULTS.md#unknown-command-the-command-q for `/x/!Q`
FAULTS.md#bad-address-lines-after-an-address for `6,+2`
FAULTS.md#bad-address-lines-after-an-address for `/x/,+
FAULTS.md#bad-replacement-letters-in-upper-and-lower-case to change whole lines
FAULTS.md#bad-flag-the-flags-e-and-m `^` and `$` match only
FAULTS.md#bad-transliteration-an-open-list BusyBox reads `[`
FAULTS.md#missing-text-one-that-begins-with-a-backslash seds differ on a text
FAULTS.md#bad-label some seds read `#`
FAULTS.md#bad-label-a-brace-in-an-inner-block BusyBox reads the `}`
FAULTS.md#bad-label-a-brace-in-an-inner-block in a nested block
FAULTS.md#extra-text-an-argument an exit status
FAULTS.md#extra-text-a-byte-at-the-end-of-a-line BusyBox joins
FAULTS.md#extra-text-a-byte-at-the-end-of-a-line BusyBox ends a comment
FAULTS.md#extra-text-a-control-character-in-a-name remove this control character
FAULTS.md#extra-text-a-byte-at-the-end-of-a-line the line ends in a carriage return
FAULTS.md#bad-escape-classes-of-letters-and-blanks for `\\s`
FAULTS.md#bad-escape-classes-of-letters-and-blanks for `\\S`
FAULTS.md#bad-escape-classes-of-letters-and-blanks for `\\w`
FAULTS.md#bad-escape-classes-of-letters-and-blanks for `\\W`
FAULTS.md#bad-escape-edges-of-words for `s/\\<WORD
FAULTS.md#bad-escape-edges-of-words for `s/WORD\\>
FAULTS.md#bad-escape-edges-of-words for `s/\\bWORD
FAULTS.md#bad-escape-edges-of-words match what is next to the word
FAULTS.md#bad-escape-edges-of-words no escape of POSIX means an end of a word
FAULTS.md#bad-escape-the-flags-p-and-w-beside-an-escape the flags `p` and `w`
FAULTS.md#bad-escape-a-bar for `/a\\|b/d`
FAULTS.md#bad-escape-a-bar a range needs one expression
FAULTS.md#bad-escape-a-bar-and-an-exclamation-mark for `/a\\|b/!d`
FAULTS.md#bad-escape-a-bar-and-another-command for `/a\\|b/p`
FAULTS.md#bad-escape-a-bar-in-s-with-g for `s/a\\|b/x/g`
FAULTS.md#bad-escape-a-bar-in-s for `s/a\\|b/x/`
FAULTS.md#bad-escape-a-bar-in-a-group write `\\([ab]\\)`
FAULTS.md#bad-escape-a-bar-and-an-anchor-in-a-group for `s/\\(^
FAULTS.md#bad-escape-a-bar-and-an-anchor-in-a-group for `s/a\\(,
FAULTS.md#bad-escape-plus-and-question-mark-elsewhere at the start of an expression
FAULTS.md#bad-escape-plus-and-question-mark-elsewhere if the two characters
FAULTS.md#bad-escape-plus-and-question-mark-elsewhere for `x\\+` write `xx*`,
FAULTS.md#bad-escape-plus-and-question-mark-elsewhere for `x\\?` write `x\\{0\\,1\\}`
FAULTS.md#bad-escape-a-list GNU sed turns
FAULTS.md#bad-escape-a-list if a digit is meant write `[[:digit:]]`; GNU
FAULTS.md#bad-bracket-symbols write the byte itself: `[.]`
FAULTS.md#bad-bracket-symbols a symbol of a list
FAULTS.md#bad-bracket-a-bracket-at-the-end BusyBox ends this list
FAULTS.md#nothing-to-repeat-an-anchor an anchor holds in one place
FAULTS.md#bad-reference-beside-a-repeated-group repeat bytes and lists
FAULTS.md#escaped-delimiter-with-a-bracket-list GNU sed reads `\\x` as the start
";
