//! The shell text in files that are no shell scripts, each byte with its place in the file.
//!
//! Nothing is promised of what is read: what comes of it is compared with the file before it is judged.
#![tactic(auto)]

mod autoconf;
mod docker;
mod host;
mod make;
mod make_text;
mod parts;
mod spec;
mod systemd;
mod yaml;

pub use host::{Assignment, Host, host_of};
