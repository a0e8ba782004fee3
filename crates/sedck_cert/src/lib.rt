//! Certificates: what they are, when they are accepted, what that promises, how many steps a run takes, and how long its spaces get.
#![tactic(auto)]

mod all_limits;
mod bounding;
mod certificate;
mod checking;
mod falling;
pub mod laws;
mod limits;
mod reading;
mod spaces;
pub mod streams;
mod verifying;
mod version_one;
mod versions;
mod writing;

pub use all_limits::limits_of;
pub use bounding::{bound, first_growth, limit};
pub use certificate::Cert;
pub use checking::{Rejection, Verdict, check};
pub use falling::limit_by_lines;
pub use limits::{Bound, Limits};
pub use reading::{CertFault, read_any, read_cert, read_cert_one};
pub use spaces::space_limit;
pub use verifying::{Fault, Judged, judge, verify};
pub use version_one::{CertOne, upgrade};
pub use writing::{write_cert, write_files};
