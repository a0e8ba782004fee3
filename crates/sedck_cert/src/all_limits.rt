//! All limits that are known of a script's runs.

ghost use Rattle.sedck_cert.specs.Ranked.{Accepts};
ghost use Rattle.sedck_cert.specs.Limits.{AreLimits, AreLimitsEverywhere};

use crate::bounding::limit;
use crate::certificate::Cert;
use crate::falling::limit_by_lines;
use crate::limits::Limits;
use crate::spaces::space_limit;
use sedck_script::Script;

/// The limits on the runs of a script for which the certificate is accepted.
pub fn limits_of(script: &Script, cert: &Cert) -> Limits
    requires { Accepts script.now cert.now }
    ensures limits { AreLimits script.now cert.now result }
    ensures everywhere { AreLimitsEverywhere script.now result }
{
    Limits {
        steps: limit(script, cert),
        by_lines: limit_by_lines(script, cert),
        spaces: space_limit(script, cert),
    }
}
