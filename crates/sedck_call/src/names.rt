//! Names of options and their beginnings.

ghost use Rattle.std.specs.Prelude.{◌≡◌};
ghost use Rattle.sedck_call.specs.Options.{abbreviates};

/// Whether the name is a beginning of the whole name, of at least so many bytes.
pub(crate) fn abbreviates(name: &[u8], whole: &[u8], least: usize) -> bool
    ensures { result ≡ abbreviates name.now whole.now least }
{
    name.len() >= least && whole.starts_with(name)
}
