// Facts that are sets of entries.
ghost use Rattle.std.specs.Prelude.{◌≡◌};
ghost use Rattle.std.proofs.Common.{ap, rules};
ghost use Rattle.spread.specs.Kinds.{no_entry, union, single_entry, has_rank, entry_count, first_entry, FirstIn};
ghost use Rattle.spread.specs.declared.entry_set.EntrySet.{EntrySet};
ghost use Rattle.spread.specs.OrAssoc.{or_assoc};
ghost use Rattle.std.proofs.lemmas.Nat.{or_comm};
ghost use Rattle.std.specs.Int.Bits.{or_self};

use crate::fact::Fact;

/// A set of entries, by their ranks 0 to 63: rank r is in it where bit r is 1.
#[derive(Clone, Copy, PartialEq, Eq, Debug)]
pub struct EntrySet(pub u64);

impl EntrySet {
    /// The set of this rank alone; the empty set for a rank past 63.
    pub fn single(rank: u32) -> EntrySet
        ensures { result ≡ single_entry rank }
    {
        if rank < 64 {
            EntrySet(1 << rank)
        } else {
            EntrySet::none()
        }
    }

    /// Whether the rank is in the set.
    pub fn holds(self, rank: u32) -> bool
        ensures { result ≡ has_rank self rank }
    {
        let ranks = self.0;
        rank < 64 && (ranks >> rank) % 2 == 1
    }

    /// How many ranks are in the set.
    pub fn count(self) -> u32
        ensures { result ≡ entry_count self }
    {
        self.0.count_ones()
    }

    /// The least rank in the set, if it has one.
    pub fn first(self) -> Option<u32>
        ensures answer { result ≡ first_entry self }
        ensures least { FirstIn self result }
    {
        match self.0 {
            0 => None,
            ranks => Some(ranks.trailing_zeros()),
        }
    }
}

impl Fact for EntrySet {
    ghost zero = { no_entry };

    ghost join = { union };

    ghost assoc = { λ x y z. ap {B = EntrySet} (λ n. record { 0 = n }) (or_assoc x.0 y.0 z.0) };

    ghost comm = { λ x y. ap {B = EntrySet} (λ n. record { 0 = n }) (or_comm x.0 y.0) };

    ghost idem = { λ x. ap {B = EntrySet} (λ n. record { 0 = n }) (or_self x.0) };

    ghost left = { Prim.search rules };

    fn none() -> EntrySet {
        EntrySet(0)
    }

    fn joined(self, other: EntrySet) -> EntrySet {
        EntrySet(self.0 | other.0)
    }

    fn same(self, other: EntrySet) -> bool {
        self.0 == other.0
    }
}
