//! What a reader of a script is advised: what to write in place of what is refused, by the fault and by what is around it; which files
//! it names; and warnings of what looks as if something else was meant.
//!
//! A contract says which scripts are slow to match or have a reference, and that the warning `locale` is given exactly of those that
//! aren't byte safe; of all other words it promises no more than that no warning is an error: tests follow each hint, and compare what sed
//! makes of both scripts. What is wrong with a script is said in `sedck_errors`.
#![tactic(auto)]

mod adding;
mod bars;
mod bytes;
mod characters;
mod comments;
mod doubts;
mod edges;
mod escapes;
mod extended;
mod foreign;
mod hints;
mod ignored;
mod labels;
mod lists;
mod locale;
mod looks;
mod mends;
mod misjudged;
mod multiples;
mod names;
mod paths;
mod references;
mod slow;
mod spot;
mod weights;
mod words;

pub use adding::{ReadScript, add_warnings};
pub use bytes::is_blank;
pub use foreign::{Foreign, other_kind};
pub use hints::{has_escaped_text, has_open_class, script_hint};
pub use ignored::{Word, ignoring_words, is_kept};
pub use labels::listed_labels;
pub use locale::locale_warnings;
pub use mends::{Mend, script_mend};
pub use misjudged::{is_misjudged, misjudged_reason};
pub use names::{NamedFiles, named_files};
pub use references::references_in;
pub use slow::{ITEM_LIMIT, Slow, slow_of};
pub use spot::{Purpose, Spot};
