// What every order of link calls leaves.
#![tactic(auto)]

ghost use Rattle.settled.specs.Examples.{Worked};
ghost use Rattle.settled.specs.First.{KindByFirst};
ghost use Rattle.settled.specs.Theorem.{EveryOrderSettles, OneOutcome, OneSettled};

mod calls;

pub use calls::{Asked, Pass};

/// Whatever the order of the calls, the marks settle, and there is one way to be settled.
pub fn every_order_settles()
    ensures settles { EveryOrderSettles }
    ensures one { OneSettled }
    ensures outcome { OneOutcome }
    ensures first { KindByFirst }
{}

/// What the settled marks are in nine small graphs.
pub fn worked_examples()
    ensures { Worked }
{}
