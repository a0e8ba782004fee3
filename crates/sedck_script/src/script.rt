//! A script, borrowed from its text.

use crate::expressions::shortest_of;
use sedck_commands::{Address, Verb};
use std::marker::Model;

/// A command.
#[derive(Drop)]
pub struct Command<'a> {
    pub address: Address,
    /// There is a `!`, or several.
    pub negated: bool,
    pub verb: Verb<'a>,
}

/// A script: its commands and its names.
#[derive(Drop)]
pub struct Script<'a> {
    commands: Vec<Command<'a>>,
    reads: Vec<&'a [u8]>,
    writes: Vec<&'a [u8]>,
    quiet: bool,
    shortest: u32,
}

impl<'a> Model for Script<'a> {
    ghost use Rattle.std.specs.Prelude.{map};
    ghost use Rattle.sedck_commands.specs.Program.{Program};

    ghost Value = { Program };

    ghost use Rattle.std.specs.Coded.{codes};
    ghost use Rattle.sedck_bre.specs.Private.TreeCode.{coded_tree};

    ghost coded = { Prim.hlevel (codes, coded_tree) };

    ghost use Rattle.sedck_script.specs.Private.Fields.{program_of, IsWhole};

    ghost view = { program_of };

    ghost invariant = { IsWhole };
}

impl<'a> Script<'a> {
    ghost use Rattle.std.specs.Prelude.{◌≡◌, map};
    ghost use Rattle.sedck_script.specs.Names.{reads as reads_of, writes as writes_of};
    ghost use Rattle.sedck_script.specs.Invariant.{IsScript};
    ghost use Rattle.sedck_script.specs.View.{command_of};
    ghost use Rattle.sedck_script.specs.Private.Fields.{program_from};
    ghost use Rattle.sedck_bre.specs.Lengths.{IsLeastSize};
    ghost use Rattle.sedck_commands.specs.Program.{expressions};
    ghost use Rattle.sedck_script.specs.Shortest.{SomeHasLength};

    /// A script of these commands.
    pub(crate) fn new(
        commands: Vec<Command<'a>>,
        reads: Vec<&'a [u8]>,
        writes: Vec<&'a [u8]>,
        quiet: bool,
    ) -> Self
        requires script { IsScript (program_from commands.items quiet) }
        requires read { map (λ name. name.now) reads.items ≡ reads_of (program_from commands.items quiet) }
        requires written { map (λ name. name.now) writes.items ≡ writes_of (program_from commands.items quiet) }
        ensures { result ≡ program_from commands.entry.items quiet }
    {
        let shortest = shortest_of(&commands);
        Script {
            commands,
            reads,
            writes,
            quiet,
            shortest,
        }
    }

    /// Whether the first line says that nothing is printed by itself.
    pub fn quiet(&self) -> bool
        ensures { result ≡ self.now.quiet }
    {
        self.quiet
    }

    /// The commands, in order.
    pub fn commands(&self) -> &[Command<'a>]
        ensures commands { map command_of result.now ≡ self.now.commands }
        ensures script { IsScript self.now }
    {
        &self.commands
    }

    /// The names of `r` commands, each once, sorted by bytes.
    pub fn reads(&self) -> &[&'a [u8]]
        ensures { map (λ name. name.now) result.now ≡ reads_of self.now }
    {
        &self.reads
    }

    /// The names of `w` commands and flags, each once, sorted by bytes.
    pub fn writes(&self) -> &[&'a [u8]]
        ensures { map (λ name. name.now) result.now ≡ writes_of self.now }
    {
        &self.writes
    }

    /// The least length of a text of any of the script's expressions, those of addresses too. It is
    /// 16,777,215 where that is above it, and where the script has no expression.
    pub fn shortest(&self) -> u32
        ensures { IsLeastSize (SomeHasLength (expressions self.now.commands)) result }
    {
        self.shortest
    }
}
