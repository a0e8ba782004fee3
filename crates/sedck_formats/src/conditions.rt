//! Kinds of conditions.

/// What a condition of a call in a file is about.
#[derive(Clone, Copy, PartialEq, Eq)]
pub enum ConditionKind {
    /// Which sed runs, and with which options.
    Sed,
    /// What runs the sed.
    Runner,
    /// An operand, which must be no option.
    Operand,
    /// A word, of which a shell might make several.
    Word,
    /// A pattern without quotes.
    Pattern,
    /// POSIXLY_CORRECT, by which options after operands are none.
    Order,
    /// A value in a script that is unknown.
    Script,
    /// A value that the file sets.
    Value,
    /// A value that is assumed, on which the status doesn't depend.
    Assumed,
    /// A delimiter in a list.
    Delimiter,
}

/// How many kinds there are.
pub(crate) const KIND_COUNT: usize = 10;

/// The kinds, each with its name.
pub(crate) static KINDS: [(ConditionKind, &'static str); KIND_COUNT] = [
    (ConditionKind::Sed, "sed"),
    (ConditionKind::Runner, "runner"),
    (ConditionKind::Operand, "operand"),
    (ConditionKind::Word, "word"),
    (ConditionKind::Pattern, "pattern"),
    (ConditionKind::Order, "order"),
    (ConditionKind::Script, "script"),
    (ConditionKind::Value, "value"),
    (ConditionKind::Assumed, "assumed"),
    (ConditionKind::Delimiter, "delimiter"),
];

/// How many conditions of a kind there are, and how many calls depend on such ones.
#[derive(Clone, Copy)]
pub struct KindCount {
    pub conditions: usize,
    pub calls: usize,
}
