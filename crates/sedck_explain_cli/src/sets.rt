//! Sets of assumptions, which have names.

/// Their names.
pub(crate) const SETS: &[&str] = &["autoconf"];

/// What the set `autoconf` has, as words of `--assume`: what `configure` scripts set to the same text everywhere, but for SED and
/// POSIXLY_CORRECT, which are the environment's.
pub(crate) static AUTOCONF: &'static [&'static str] = &[
    "SED=sed",
    "ac_ext=c",
    "sed_quote_subst=s/\\([\"`$\\\\]\\)/\\\\\\1/g",
    "double_quote_subst=s/\\([\"`\\\\]\\)/\\\\\\1/g",
    "delay_variable_subst=s/\\\\\\\\\\\\\\\\\\\\\\$/\\\\\\\\\\\\$/g",
    "delay_single_quote_subst=s/'/'\\\\\\''/g",
    "no_glob_subst=s/\\*/\\\\\\*/g",
    "as_cr_letters=abcdefghijklmnopqrstuvwxyz",
    "as_cr_LETTERS=ABCDEFGHIJKLMNOPQRSTUVWXYZ",
    "as_cr_Letters=abcdefghijklmnopqrstuvwxyzABCDEFGHIJKLMNOPQRSTUVWXYZ",
    "as_cr_digits=0123456789",
    "as_cr_alnum=abcdefghijklmnopqrstuvwxyzABCDEFGHIJKLMNOPQRSTUVWXYZ0123456789",
    "gl_make_literal_regex_sed=s,[]$^\\\\.*/[],\\\\&,g",
    "sed_drop_objext=s/\\.o$//;s/\\.obj$//",
    "sed_dirname1=s,//*,/,g",
    "sed_dirname2=s,\\(.\\)/$,\\1,",
    "sed_dirname3=s,^[^/]*$,.,",
    "sed_dirname4=s,\\(.\\)/[^/]*$,\\1,",
    "sed_basename1=s,.*/,,",
    "POSIXLY_CORRECT",
];
