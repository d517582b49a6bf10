// Facts that are an interop use or none.
ghost use Rattle.spread.specs.Kinds.{no_use, use_join};
ghost use Rattle.std.proofs.Common.{rules};

use crate::fact::Fact;

/// What a use asks for: the interop of Node, `__toESM(require("x"), 1)`, the other, `__toESM(require("x"))`, both or
/// neither.
#[derive(Clone, Copy, PartialEq, Eq, Debug)]
pub struct InteropUse {
    pub node: bool,
    pub non_node: bool,
}

impl Fact for Option<InteropUse> {
    ghost zero = { no_use };

    ghost join = { use_join };

    ghost assoc = { Prim.search rules };

    ghost comm = { Prim.search rules };

    ghost idem = { Prim.search rules };

    ghost left = { Prim.search rules };

    fn none() -> Option<InteropUse> {
        None
    }

    fn joined(self, other: Option<InteropUse>) -> Option<InteropUse> {
        match (self, other) {
            (None, _) => other,
            (_, None) => self,
            (Some(a), Some(b)) => Some(InteropUse {
                node: a.node | b.node,
                non_node: a.non_node | b.non_node,
            }),
        }
    }

    fn same(self, other: Option<InteropUse>) -> bool {
        self == other
    }
}
