//! What commands are made of, borrowed from their text.

ghost use Rattle.std.specs.Prelude.{◌≡◌, map};
ghost use Rattle.sedck_commands.specs.Program.{literal_length};
ghost use Rattle.sedck_commands.specs.ReplacementView.{pattern_of, part_of};
ghost use Rattle.sedck_commands.specs.References.{IsOutside};

use sedck_bre::Expr;

/// An expression as it is written in a command.
#[derive(Drop)]
pub enum Pattern {
    /// The empty expression: it stands for another one of the script.
    Previous,
    /// The command's own expression.
    Expr(Expr),
}

/// One address.
#[derive(Drop)]
pub enum Place {
    /// A line number, from 1.
    Line(u32),
    /// `$`, the last line.
    Last,
    /// `/expression/`: lines of which some part is matched.
    Context(Pattern),
}

/// The addresses of a command.
#[derive(Drop)]
pub enum Address {
    None,
    One(Place),
    /// A range of lines, from the first address to the second.
    Two(Place, Place),
}

/// A part of a replacement.
#[derive(Clone, Copy)]
pub enum Part<'a> {
    /// These bytes.
    Text(&'a [u8]),
    /// `\n`.
    Newline,
    /// `\t`.
    Tab,
    /// `&`: the whole match.
    Whole,
    /// `\1` to `\9`: the text of a group.
    Group(u8),
}

/// What `s` takes.
#[derive(Drop)]
pub struct Substitution<'a> {
    pub pattern: Pattern,
    pub parts: Vec<Part<'a>>,
    /// The flag `g`.
    pub global: bool,
    /// The flag `p`.
    pub print: bool,
    /// A number among the flags: which match is replaced, from 1.
    pub nth: Option<u32>,
    /// The name of the flag `w`.
    pub file: Option<&'a [u8]>,
    /// The least length of a match outside of the groups that the replacement names, where it has no
    /// `&` and they are different items of the expression. An empty expression has no length here.
    pub outside: Option<u32>,
    pub ghost is_outside: { ∥ IsOutside (pattern_of pattern) (map part_of parts.items) outside ∥₁ },
    /// The bytes of the replacement's literal parts.
    pub literal: usize,
    pub ghost is_literal: { literal ≡ literal_length (map part_of parts.items) },
}

/// A verb with what it takes. A target is the place of a command, counted from 0, or the number of commands for the end.
#[derive(Drop)]
pub enum Verb<'a> {
    /// `:`, with its label.
    Label(&'a [u8]),
    /// `b`, with its target.
    Branch(usize),
    /// `t`, with its target.
    Test(usize),
    /// `{`, with the place after its `}`.
    Block(usize),
    /// `a`, with its text as it is written.
    Append(&'a [u8]),
    /// `c`, with its text as it is written.
    Change(&'a [u8]),
    /// `i`, with its text as it is written.
    Insert(&'a [u8]),
    /// `r`, with its file name.
    Read(&'a [u8]),
    /// `w`, with its file name.
    Write(&'a [u8]),
    /// `s`.
    Substitute(Substitution<'a>),
    /// `y`, with its two lists, which are equally long.
    Transliterate(Vec<u8>, Vec<u8>),
    /// `d`.
    Delete,
    /// `D`.
    DeleteFirstLine,
    /// `g`.
    Get,
    /// `G`.
    GetAppend,
    /// `h`.
    Hold,
    /// `H`.
    HoldAppend,
    /// `l`.
    List,
    /// `n`.
    Next,
    /// `N`.
    NextAppend,
    /// `p`.
    Print,
    /// `P`.
    PrintFirstLine,
    /// `q`.
    Quit,
    /// `x`.
    Exchange,
    /// `=`.
    LineNumber,
}
