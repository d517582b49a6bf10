// Facts that are yes or no.
ghost use Rattle.spread.specs.Kinds.{plain_no, either};
ghost use Rattle.std.proofs.Common.{rules};

use crate::fact::Fact;

/// Yes or no: joined, they are yes where one is.
#[derive(Clone, Copy, PartialEq, Eq, Debug)]
pub struct YesNo(pub bool);

impl Fact for YesNo {
    ghost zero = { plain_no };

    ghost join = { either };

    ghost assoc = { Prim.search rules };

    ghost comm = { Prim.search rules };

    ghost idem = { Prim.search rules };

    ghost left = { Prim.search rules };

    fn none() -> YesNo {
        YesNo(false)
    }

    // As for entry sets: one impl for both would need a trait of what can be or-ed.
    fn joined(self, other: YesNo) -> YesNo {
        YesNo(self.0 | other.0)
    }

    fn same(self, other: YesNo) -> bool {
        self == other
    }
}
