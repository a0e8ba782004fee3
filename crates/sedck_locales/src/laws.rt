//! What is proved of expressions in other locales. The functions do nothing: their contracts are the laws.

ghost use Rattle.sedck_locales.specs.Laws.{ListsAreWritten, ListsAreByExpression, WrittenAlikeIsOne, WrittenAlikeMatchAlike, MatchesArePosix, SpelledSameIsWrittenAlike};

/// The bracket lists of an expression that are found in its text are those of the grammar, one after another.
pub fn lists_are_written()
    ensures { ListsAreWritten }
{}

/// Commands with the same bracket lists have them expression by expression.
pub fn lists_are_by_expression()
    ensures { ListsAreByExpression }
{}

/// Two texts of one expression whose bracket lists are written alike match alike, whatever a locale makes of lists.
pub fn written_alike_match_alike()
    ensures tree { WrittenAlikeIsOne }
    ensures alike { WrittenAlikeMatchAlike }
{}

/// Where each list matches what it does in the POSIX locale, an expression matches what it does there.
pub fn matches_are_posix()
    ensures { MatchesArePosix }
{}

/// What runs is what was judged, in each locale: a script and its plain text are one program with the bracket lists that are written.
pub fn spelled_same_is_written_alike()
    ensures { SpelledSameIsWrittenAlike }
{}
