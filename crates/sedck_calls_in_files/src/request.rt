//! What is asked of a scan.

use sedck_explanation::{Denied, Level};
use sedck_found::Assumptions;
use sedck_kinds::Kind;
use std::alloc::Global;

/// How the reports of a scan look.
#[derive(Clone, Copy, PartialEq, Eq)]
pub enum Look {
    /// For people, in colours of ANSI terminals or without.
    Text { colour: bool },
    Gcc,
    Json,
}

/// What is asked for.
#[derive(Drop)]
pub struct Scan<'a> {
    /// Files and folders.
    pub paths: &'a [&'a str],
    /// What all files are taken for; none where each is taken for what its name and its first line say.
    pub kind: Option<Kind>,
    pub assumed: Assumptions<'a>,
    /// What a script may not have.
    pub denied: Denied,
    pub look: Look,
    /// The least level of findings that are reported.
    pub least: Level,
}

/// A file in which calls are looked for.
#[derive(Clone, Copy, Drop)]
pub struct File<'a> {
    pub path: &'a str,
    pub kind: Kind,
    pub text: &'a [u8],
}

/// What is asked of a file.
#[derive(Drop)]
pub struct FileScan<'a> {
    pub alloc: Global,
    pub scan: &'a Scan<'a>,
    pub file: File<'a>,
}
