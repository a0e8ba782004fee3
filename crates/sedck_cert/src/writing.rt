//! From a certificate to its text.

ghost use Rattle.std.specs.Prelude.{◌≡◌, ◌+◌, ◌++◌, ◌≤◌, ◌∷◌, [], length, drop, replicate, map, OnOk, OnErr, decimal, codes, ℕ, List};
ghost use Rattle.std.specs.Io.KnownBytes.{Appends};
ghost use Rattle.sedck_cert.specs.Streams.{ReportsFailure, IsPrefixOf, AppendsPrefix};
ghost use Rattle.sedck_cert.specs.Text.{line, header, ranks_text, node_text, node_texts, joined_lines, files_text, certificate_text};
ghost use Rattle.sedck_cert.specs.declared.versions.Version.TheVariants.{Two};

use crate::certificate::Cert;
use crate::streams::{Failed, Sink, write_all, write_decimal};
use itoa::write_digits;
use std::convert::AsSlice;

/// Writes the certificate's text. It takes no memory.
pub fn write_cert<W: Sink>(cert: &Cert, out: &mut W) -> Result<(), Failed>
    ensures written { OnOk result (Appends (W.taken out.old) (W.taken out.new) (certificate_text cert.now)) }

    // After an error a prefix of the text was taken.
    ensures begun { OnErr result ((front : List ℕ) × IsPrefixOf front (certificate_text cert.now) × Appends (W.taken out.old) (W.taken out.new) front) }
    ensures failure { ReportsFailure result (W.has_failed out.old) (W.has_failed out.new) }
{
    write_head(out, cert.commands())?;
    write_nodes(out, cert.ranks())?;
    write_files(out, cert.reads(), cert.writes())?;
    write_line(out, b"end")
}

/// Writes the decimal of the number, and a byte after it.
fn write_field<W: Sink>(out: &mut W, number: u16, end: u8) -> Result<(), Failed>
    ensures written { OnOk result (Appends (W.taken out.old) (W.taken out.new) (decimal number ++ end ∷ [])) }
    ensures begun { OnErr result (AppendsPrefix (W.taken out.old) (W.taken out.new) (decimal number ++ end ∷ [])) }
    ensures failure { ReportsFailure result (W.has_failed out.old) (W.has_failed out.new) }
{
    write_decimal(out, usize::from(number))?;
    write_all(out, &[end])
}

/// Writes the text as a line.
fn write_line<W: Sink>(out: &mut W, text: &[u8]) -> Result<(), Failed>
    ensures written { OnOk result (Appends (W.taken out.old) (W.taken out.new) (line text.now)) }
    ensures begun { OnErr result (AppendsPrefix (W.taken out.old) (W.taken out.new) (line text.now)) }
    ensures failure { ReportsFailure result (W.has_failed out.old) (W.has_failed out.new) }
{
    write_all(out, text)?;
    write_all(out, b"\n")
}

/// More bytes than a node's line has: five decimals of at most five digits, each with a byte after it.
const LINE: usize = 32;

/// Puts the decimal of the number and a blank before this place of the line, and answers where it begins.
fn put_field(buffer: &mut [u8; 32], number: u16, end: usize) -> usize
    requires { (6 ≤ end) × (end ≤ 32) }
    ensures put { drop result buffer.new ≡ decimal number ++ 32 ∷ drop end buffer.old }
    ensures room { (end ≤ result + 6) × (result ≤ 32) }
{
    buffer[end - 1] = b' ';
    write_digits(u64::from(number), buffer, end - 1)
}

/// Puts the ranks before the newline that ends the line, and answers where they begin.
fn put_ranks(buffer: &mut [u8; 32], ranks: Option<(u16, u16)>) -> usize
    requires { buffer.old ≡ replicate 32 10 }
    ensures put { drop result buffer.new ≡ line (ranks_text ranks) }
    ensures room { (18 ≤ result) × (result ≤ 32) }
{
    let Some((first, second)) = ranks else {
        buffer[LINE - 2] = b'-';
        return LINE - 2;
    };
    let start = write_digits(u64::from(second), buffer, LINE - 1);
    put_field(buffer, first, start)
}

/// Writes a node's line: its place, its flag, whether the last line has been read, and its ranks. It is put together from its end, and
/// written at once.
fn write_node<W: Sink>(out: &mut W, index: u16, ranks: Option<(u16, u16)>) -> Result<(), Failed>
    ensures written { OnOk result (Appends (W.taken out.old) (W.taken out.new) (line (node_text Two index ranks))) }
    ensures begun { OnErr result (AppendsPrefix (W.taken out.old) (W.taken out.new) (line (node_text Two index ranks))) }
    ensures failure { ReportsFailure result (W.has_failed out.old) (W.has_failed out.new) }
{
    let mut buffer = [b'\n'; LINE];
    let start = put_ranks(&mut buffer, ranks);
    let start = put_field(&mut buffer, index % 2, start);
    let start = put_field(&mut buffer, index / 2 % 2, start);
    let start = put_field(&mut buffer, index / 4, start);
    write_all(out, &buffer[start..])
}

fn write_nodes<W: Sink>(out: &mut W, ranks: &[Option<(u16, u16)>]) -> Result<(), Failed>
    requires { length ranks.now ≤ 16384 }
    ensures written { OnOk result (Appends (W.taken out.old) (W.taken out.new) (joined_lines (node_texts Two 0 ranks.now))) }
    ensures begun { OnErr result (AppendsPrefix (W.taken out.old) (W.taken out.new) (joined_lines (node_texts Two 0 ranks.now))) }
    ensures failure { ReportsFailure result (W.has_failed out.old) (W.has_failed out.new) }
{
    for (node, pair) in ranks.iter().enumerate() {
        write_node(out, node as u16, *pair)?;
    }
    Ok(())
}

/// Writes what is before the nodes.
fn write_head<W: Sink>(out: &mut W, commands: u16) -> Result<(), Failed>
    ensures written { OnOk result (Appends (W.taken out.old) (W.taken out.new) (line (header Two) ++ line (codes "commands " ++ decimal commands))) }
    ensures begun { OnErr result (AppendsPrefix (W.taken out.old) (W.taken out.new) (line (header Two) ++ line (codes "commands " ++ decimal commands))) }
    ensures failure { ReportsFailure result (W.has_failed out.old) (W.has_failed out.new) }
{
    write_all(out, b"sedck 2\ncommands ")?;
    write_field(out, commands, b'\n')
}

/// Writes the lists of the names that are read and written, as certificates and reports have them. It takes no memory.
pub fn write_files<W: Sink, N: AsSlice<u8>>(
    out: &mut W,
    reads: &[N],
    writes: &[N],
) -> Result<(), Failed>
    ensures written { OnOk result (Appends (W.taken out.old) (W.taken out.new)
        (files_text (map N.items reads.now) (map N.items writes.now))) }
    // After an error a prefix of the text was taken.
    ensures begun { OnErr result (AppendsPrefix (W.taken out.old) (W.taken out.new)
        (files_text (map N.items reads.now) (map N.items writes.now))) }
    ensures failure { ReportsFailure result (W.has_failed out.old) (W.has_failed out.new) }
{
    write_names(out, b"read ", reads)?;
    write_names(out, b"write ", writes)
}

/// Writes the lines of a list.
fn write_names<W: Sink, N: AsSlice<u8>>(out: &mut W, word: &[u8], names: &[N]) -> Result<(), Failed>
    ensures written { OnOk result (Appends (W.taken out.old) (W.taken out.new)
        (line (word.now ++ decimal (length (map N.items names.now))) ++ joined_lines (map N.items names.now))) }
    ensures begun { OnErr result (AppendsPrefix (W.taken out.old) (W.taken out.new)
        (line (word.now ++ decimal (length (map N.items names.now))) ++ joined_lines (map N.items names.now))) }
    ensures failure { ReportsFailure result (W.has_failed out.old) (W.has_failed out.new) }
{
    write_all(out, word)?;
    write_decimal(out, names.len())?;
    write_all(out, b"\n")?;
    write_lines(out, names)
}

/// Writes each name as a line.
fn write_lines<W: Sink, N: AsSlice<u8>>(out: &mut W, names: &[N]) -> Result<(), Failed>
    ensures written { OnOk result (Appends (W.taken out.old) (W.taken out.new) (joined_lines (map N.items names.now))) }
    ensures begun { OnErr result (AppendsPrefix (W.taken out.old) (W.taken out.new) (joined_lines (map N.items names.now))) }
    ensures failure { ReportsFailure result (W.has_failed out.old) (W.has_failed out.new) }
{
    for name in names {
        write_line(out, name.as_slice())?;
    }
    Ok(())
}
