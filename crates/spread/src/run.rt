// Spreading, by sweeps over the arrows.
ghost use Rattle.std.specs.Prelude.{◌≡◌, false, length};
ghost use Rattle.spread.specs.Leads.{Inside, AllInside};
ghost use Rattle.spread.specs.Spread.{ends_past, arrow_verdict, Spread, Leaves};
ghost use Rattle.spread.specs.Laws.{Laws};
ghost use Rattle.spread.specs.Sweep.{carried, Swept, Each};

use crate::arrow::Arrow;
use crate::fact::Fact;
use faults::{Fault, Layer, Refusal};

// Whether an end of the arrow is past the places.
fn ends_past(places: usize, arrow: Arrow) -> bool
    ensures { result ≡ ends_past places arrow }
{
    (arrow.from as usize >= places) | (arrow.to as usize >= places)
}

// Refuses at the first row that has an end past the places.
fn check_arrows(places: usize, arrows: &[Arrow]) -> Result<(), Fault>
    ensures { result ≡ arrow_verdict places arrows.now }
{
    for (row, arrow) in arrows.iter().enumerate() {
        if ends_past(places, *arrow) {
            return Err(Refusal::TargetPastEnd.found_by(Layer::Link, row, 0));
        }
    }
    Ok(())
}

// Joins the fact at the arrow's start into the one at its end, and says whether that changed.
fn carry<F: Fact>(facts: &mut [F], arrow: Arrow) -> bool
    requires { Inside (length facts.old) arrow }
    ensures writes { facts.new ≡ carried F.zero F.join facts.old arrow }
    ensures still { result ≡ false → facts.new ≡ facts.old }
{
    let to = arrow.to as usize;
    let old = facts[to];
    let new = old.joined(facts[arrow.from as usize]);
    facts[to] = new;
    !old.same(new)
}

// Takes each arrow once, first to last, and says whether a fact changed.
fn sweep_forward<F: Fact>(facts: &mut [F], arrows: &[Arrow]) -> bool
    requires { AllInside (length facts.old) arrows.now }
    ensures { Swept F.zero F.join arrows.now Each facts.old facts.new result }
{
    let mut changed = false;
    for arrow in arrows {
        let moved = carry(facts, *arrow);
        changed |= moved;
    }
    changed
}

// The two directions stand apart: a function over any iterator would have to ask that it ends and gives these arrows.
// Takes each arrow once, last to first, and says whether a fact changed.
fn sweep_backward<F: Fact>(facts: &mut [F], arrows: &[Arrow]) -> bool
    requires { AllInside (length facts.old) arrows.now }
    ensures { Swept F.zero F.join arrows.now Each facts.old facts.new result }
{
    let mut changed = false;
    for last in arrows.iter().rev() {
        let moved = carry(facts, *last);
        changed |= moved;
    }
    changed
}

// One sweep, in either direction.
fn sweep<F: Fact>(facts: &mut [F], arrows: &[Arrow], backward: bool) -> bool
    requires { AllInside (length facts.old) arrows.now }
    ensures { Swept F.zero F.join arrows.now Each facts.old facts.new result }
{
    if backward {
        sweep_backward(facts, arrows)
    } else {
        sweep_forward(facts, arrows)
    }
}

// Sweeps forward and backward in turn until a sweep changes nothing, and at most once for each place: no way that
// passes each place once is longer.
fn settle<F: Fact>(facts: &mut [F], arrows: &[Arrow])
    requires { AllInside (length facts.old) arrows.now }
    ensures { Spread F.zero F.join arrows.now facts.old facts.new }
{
    // Rounds are counted, and index nothing.
    for round in 0..facts.len() {
        if !sweep(facts, arrows, round % 2 == 1) {
            return;
        }
    }
}

/// Brings each fact to wherever the arrows lead from its place: each place ends with the join of the starting facts
/// that lead there, its own among them. Refuses at the first arrow that has an end past the facts, and then leaves
/// them as they were.
pub fn spread<F: Fact>(facts: &mut [F], arrows: &[Arrow]) -> Result<(), Fault>
    ensures answer { result ≡ arrow_verdict (length facts.old) arrows.now }
    ensures leaves { Leaves F.zero F.join arrows.now facts.old facts.new result }
    ensures laws { Laws F.zero F.join }
{
    check_arrows(facts.len(), arrows)?;
    settle(facts, arrows);
    Ok(())
}
