//! Words for a sed, and those that run nothing.

ghost use Rattle.std.specs.Prelude.{◌≡◌};
ghost use Rattle.sedck_mentions.specs.Words.{is_name_byte as is_byte_of_name, is_word_byte as is_byte_of_word, is_path_byte as is_byte_of_path, starts_in, ends_in, is_whole as is_whole_name, is_name as is_name_of, is_program as is_program_at, is_variable as is_variable_at, is_word as is_word_between, may_run_before, is_right_after, is_idle as is_idle_after};

/// Whether a name of a variable may have the byte.
fn is_name_byte(byte: u8) -> bool
    ensures { result ≡ is_byte_of_name byte }
{
    matches!(byte, b'0'..=b'9' | b'A'..=b'Z' | b'_' | b'a'..=b'z')
}

/// Whether a word may have the byte.
fn is_word_byte(byte: u8) -> bool
    ensures { result ≡ is_byte_of_word byte }
{
    is_name_byte(byte) || byte == b'-' || byte == b'.'
}

/// Whether a path may have the byte.
pub(crate) fn is_path_byte(byte: u8) -> bool
    ensures { result ≡ is_byte_of_path byte }
{
    is_word_byte(byte) || byte == b'/'
}

/// Whether the first byte, if there is one, is one of a path.
fn starts_in_path(after: &[u8]) -> bool
    ensures { result ≡ starts_in is_byte_of_path after.now }
{
    match after.first() {
        Some(byte) => is_path_byte(*byte),
        None => false,
    }
}

/// Whether the first byte, if there is one, is one of a variable's name.
fn starts_in_name(after: &[u8]) -> bool
    ensures { result ≡ starts_in is_byte_of_name after.now }
{
    match after.first() {
        Some(byte) => is_name_byte(*byte),
        None => false,
    }
}

/// Whether the last byte, if there is one, is one of a word.
fn ends_in_word(before: &[u8]) -> bool
    ensures { result ≡ ends_in is_byte_of_word before.now }
{
    match before.last() {
        Some(byte) => is_word_byte(*byte),
        None => false,
    }
}

/// Whether the bytes begin with the name as a whole word.
fn is_whole(after: &[u8], name: &[u8]) -> bool
    ensures { result ≡ is_whole_name after.now name.now }
{
    after.starts_with(name) && !starts_in_path(&after[name.len()..])
}

/// Whether the bytes begin with the name, and no byte of a variable's name is after it.
pub(crate) fn is_name(after: &[u8], name: &[u8]) -> bool
    ensures { result ≡ is_name_of after.now name.now }
{
    after.starts_with(name) && !starts_in_name(&after[name.len()..])
}

/// Whether the bytes begin with the name of a sed.
fn is_program(after: &[u8]) -> bool
    ensures { result ≡ is_program_at after.now }
{
    is_whole(after, b"sed") || is_whole(after, b"gsed") || is_whole(after, b"ssed")
}

/// Whether the bytes begin with what stands for the value of SED.
fn is_variable(after: &[u8]) -> bool
    ensures { result ≡ is_variable_at after.now }
{
    is_name(after, b"$SED")
        || is_name(after, b"${SED")
        || is_name(after, b"$(SED")
        || after.starts_with(b"@SED@")
}

/// Whether a word for a sed begins between these bytes.
pub(crate) fn is_word(before: &[u8], after: &[u8]) -> bool
    ensures { result ≡ is_word_between before.now after.now }
{
    (is_program(after) && !ends_in_word(before)) || is_variable(after)
}

/// Whether a command, or an assignment, may begin after these bytes.
fn may_run(before: &[u8]) -> bool
    ensures { result ≡ may_run_before before.now }
{
    match before.last() {
        Some(byte) => !is_word_byte(*byte) && *byte != b'$' && *byte != b'=',
        None => true,
    }
}

/// Whether the bytes end with this text, where a command may begin.
fn is_after(before: &[u8], text: &[u8]) -> bool
    ensures { result ≡ is_right_after before.now text.now }
{
    before.ends_with(text) && may_run(&before[..before.len() - text.len()])
}

/// Whether a word right after these bytes plainly runs nothing, whatever it is.
pub(crate) fn is_idle(before: &[u8]) -> bool
    ensures { result ≡ is_idle_after before.now }
{
    is_after(before, b"SED=")
        || is_after(before, b"SED=\"")
        || is_after(before, b"SED='")
        || is_after(before, b"SED = ")
        || is_after(before, b"SED := ")
        || is_after(before, b"command -v ")
        || is_after(before, b"which ")
        || is_after(before, b"type ")
}
