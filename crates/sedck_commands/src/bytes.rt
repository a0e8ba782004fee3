//! Tests of a byte, and the limits on scripts, which are this project's own.

ghost use Rattle.std.specs.Prelude.{◌≡◌};
ghost use Rattle.sedck_commands.specs.Cuts.{is_digit, is_letter, is_ending, can_be_escaped, is_delimiter};

/// How many bytes a script's text may have.
pub const TEXT_LIMIT: usize = 1_048_576;

/// How many commands a script may have.
pub const COMMAND_LIMIT: usize = 4095;

/// How many blocks may be open at once.
pub const DEPTH_LIMIT: usize = 64;

/// A number of an address or a flag is below this.
pub const NUMBER_LIMIT: u64 = 4_294_967_296;

/// From `0` to `9`.
pub fn is_digit(b: u8) -> bool
    ensures { result ≡ is_digit b }
{
    b.is_ascii_digit()
}

/// From `a` to `z` or from `A` to `Z`.
pub fn is_letter(b: u8) -> bool
    ensures { result ≡ is_letter b }
{
    b.is_ascii_alphabetic()
}

/// Whether the byte ends a command.
pub fn is_ending(b: u8) -> bool
    ensures { result ≡ is_ending b }
{
    b == b'\n' || b == b';' || b == b'}' || b == b'#'
}

/// Whether the delimiter may be inside its part, after a backslash.
pub fn can_be_escaped(b: u8) -> bool
    ensures { result ≡ can_be_escaped b }
{
    b"\"'/,;:!@#%~_=- x".contains(&b)
}

/// Any byte of ASCII but newline and backslash.
pub fn is_delimiter(b: u8) -> bool
    ensures { result ≡ is_delimiter b }
{
    b != b'\n' && b != b'\\' && b <= 127
}
