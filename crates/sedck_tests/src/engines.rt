//! The engines of the program over streams in memory, also those that fail.
mod failures;
pub mod fakes;
mod programs;
mod runs;

/// More bytes than a test reads or writes.
const AMPLE: usize = 4_000_000;

/// A loop that reads a line in each turn.
const LOOP: &str = ":a\nn\nb a";

/// Its certificate.
const LOOP_CERTIFICATE: &str =
    "sedck 2\ncommands 3\n0 0 0 2 2\n0 0 1 2 2\n0 1 0 -\n0 1 1 -\n1 0 0 1 1\n1 0 1 1 1\n1 1 0 -\n1 1 1 -\n2 0 0 3 3\n\
      2 0 1 3 3\n2 1 0 -\n2 1 1 -\n3 0 0 -\n3 0 1 -\n3 1 0 -\n3 1 1 -\nread 0\nwrite 0\nend\n";

/// For the code of functions: a constant's bytes would be in the proof of each that names it.
static LOOP_TEXT: &'static str = LOOP_CERTIFICATE;

/// The report on the loop and its certificate.
const ACCEPTED: &str = "accepted\nbound 4 20 4\nread 0\nwrite 0\n";
