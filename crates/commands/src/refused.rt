// A file that was refused.
ghost use Rattle.std.specs.Prelude.{◌++◌, Some, codes};
ghost use Rattle.faults.specs.Faults.{fault_text};

use faults::Fault;
use std::fmt;

/// As `refused number=14 layer=card place=40,0`.
#[derive(Clone, Copy, PartialEq, Eq, Debug)]
pub struct Refused(pub Fault);

impl fmt::Display for Refused {
    ghost output = { λ r. Some (codes "refused " ++ fault_text r.0) };

    fn fmt<W: fmt::Write>(&self, f: &mut fmt::Formatter<W>) -> fmt::Result {
        let fault = self.0;
        write!(f, "refused {fault}")
    }
}
