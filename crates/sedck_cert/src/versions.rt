//! The versions of a certificate's text.

ghost use Rattle.std.specs.Prelude.{◌≡◌, ◌≤◌};
ghost use Rattle.sedck_cert.specs.Certificate.{nodes_in};
ghost use Rattle.sedck_cert.specs.Text.{header as header_of};

use sedck_flow::node_count;

/// A version of a certificate's text. In version 1 a node is a place and the substitution flag.
#[derive(Clone, Copy, PartialEq, Eq)]
pub enum Version {
    One,
    Two,
}

impl Version {
    /// The first line, without its newline.
    pub fn header(self) -> &'static [u8]
        ensures { result.now ≡ header_of self }
    {
        match self {
            Version::One => b"sedck 1",
            Version::Two => b"sedck 2",
        }
    }

    /// How many nodes a script with this many commands has.
    pub fn node_count(self, commands: u16) -> u16
        requires { commands ≤ 4095 }
        ensures { result ≡ nodes_in self commands }
    {
        match self {
            Version::One => 2 * (commands + 1),
            Version::Two => node_count(usize::from(commands)) as u16,
        }
    }
}
