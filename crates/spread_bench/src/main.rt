// What spreading costs by the shape of the arrows: `spread_bench time` also prints microseconds.
#![tactic(auto)]

use spread::{Arrow, EntrySet, Fact, YesNo, spread};
use std::alloc::{AllocError, Global};
use std::time::Instant;
use std::{env, fmt};

const PLACES: u32 = 4096;

const ROUNDS: u32 = 20;

#[derive(Clone, Copy)]
enum Shape {
    ChainInOrder,
    ChainInReverse,
    ChainShuffled,
    ChainNumberedAtRandom,
    Tree,
    Circle,
    Random,
}

const SHAPES: [Shape; 7] = [
    Shape::ChainInOrder,
    Shape::ChainInReverse,
    Shape::ChainShuffled,
    Shape::ChainNumberedAtRandom,
    Shape::Tree,
    Shape::Circle,
    Shape::Random,
];

impl fmt::Display for Shape {
    fn fmt<W: fmt::Write>(&self, f: &mut fmt::Formatter<W>) -> fmt::Result {
        f.write_str(match self {
            Shape::ChainInOrder => "chain-in-order",
            Shape::ChainInReverse => "chain-in-reverse",
            Shape::ChainShuffled => "chain-shuffled",
            Shape::ChainNumberedAtRandom => "chain-numbered-at-random",
            Shape::Tree => "tree",
            Shape::Circle => "circle",
            Shape::Random => "random",
        })
    }
}

// The next of a fixed row of numbers that look random. `full_size` has its own: programs share no library of such things.
fn next_number(state: u64) -> u64 {
    state
        .wrapping_mul(6364136223846793005)
        .wrapping_add(1442695040888963407)
}

// The numbers below `count`, in an order that looks random.
fn shuffled(heap: Global, count: u32) -> Result<Vec<u32>, AllocError> {
    let mut numbers: Vec<u32> = (0..count).collect(heap)?;
    let mut state: u64 = 7;
    let len = numbers.len();
    for i in 0..len {
        state = next_number(state);
        let j = (state >> 33) as usize % len;
        if i < numbers.len() && j < numbers.len() {
            numbers.swap(i, j);
        }
    }
    Ok(numbers)
}

fn at(numbers: &[u32], i: u32) -> u32 {
    numbers.get(i as usize).copied().unwrap_or(0)
}

// For each place the one after it on a chain through all places in the order that is given; the last has itself.
fn successors(heap: Global, order: &[u32]) -> Result<Vec<u32>, AllocError> {
    let mut after: Vec<u32> = (0..PLACES).collect(heap)?;
    for (before, next) in order.iter().zip(order.iter().skip(1)) {
        if let Some(place) = after.get_mut(*before as usize) {
            *place = *next;
        }
    }
    Ok(after)
}

// The arrow at row i of a shape; `order` has the numbers below PLACES shuffled, or each one's successor.
fn arrow(shape: Shape, order: &[u32], i: u32, random: u64) -> Arrow {
    let next = i.saturating_add(1) % PLACES;
    match shape {
        Shape::ChainInOrder | Shape::Circle => Arrow { from: i, to: next },
        Shape::ChainInReverse => {
            let from = PLACES.saturating_sub(2).saturating_sub(i);
            Arrow {
                from,
                to: from.saturating_add(1),
            }
        }
        Shape::ChainShuffled => {
            let from = at(order, i) % (PLACES - 1);
            Arrow {
                from,
                to: from.saturating_add(1),
            }
        }
        Shape::ChainNumberedAtRandom => Arrow {
            from: i,
            to: at(order, i),
        },
        Shape::Tree => Arrow {
            from: i / 2,
            to: next,
        },
        Shape::Random => {
            let low = (random >> 40) as u32 % PLACES;
            let high = (random >> 12 & 0xffff_ffff) as u32 % PLACES;
            Arrow {
                from: low,
                to: high,
            }
        }
    }
}

fn arrow_count(shape: Shape) -> u32 {
    match shape {
        Shape::Circle | Shape::ChainShuffled | Shape::ChainNumberedAtRandom => PLACES,
        Shape::Random => 8 * PLACES,
        _ => PLACES - 1,
    }
}

fn arrows_of(heap: Global, shape: Shape) -> Result<Vec<Arrow>, AllocError> {
    let order = match shape {
        Shape::ChainNumberedAtRandom => successors(heap, shuffled(heap, PLACES)?.as_slice())?,
        _ => shuffled(heap, PLACES)?,
    };
    let mut state: u64 = 11;
    let mut arrows = Vec::new(heap);
    for i in 0..arrow_count(shape) {
        state = next_number(state);
        arrows.push(arrow(shape, order.as_slice(), i, state))?;
    }
    Ok(arrows)
}

// No fact anywhere but `first` where the shape begins.
fn starts<F: Fact + Drop>(heap: Global, place: u32, first: F) -> Result<Vec<F>, AllocError> {
    Ok(
        (0..PLACES)
            .map(|i| if i == place { first } else { F::none() })
            .collect(heap)?,
    )
}

fn first_place(heap: Global, shape: Shape) -> Result<u32, AllocError> {
    match shape {
        Shape::ChainNumberedAtRandom => Ok(at(shuffled(heap, PLACES)?.as_slice(), 0)),
        _ => Ok(0),
    }
}

// Spreads one fact over the shape and prints how far it came, and on request how long it took.
fn measure<F: Fact + Drop>(
    rt: &HostRuntime,
    shape: Shape,
    kind: &str,
    first: F,
    timed: bool,
) -> anyhow::Result<()> {
    let heap = rt.alloc();
    let arrows = arrows_of(heap, shape)?;
    let place = first_place(heap, shape)?;
    let mut reached: usize = 0;
    let begun = Instant::now(rt)?;
    for _ in 0..ROUNDS {
        let mut facts = starts(heap, place, first)?;
        let _ = spread(facts.as_mut_slice(), arrows.as_slice());
        reached = facts.iter().filter(|fact| fact.same(first)).count();
    }
    let micros = begun.elapsed(rt)?.as_micros() / 20;
    let rows = arrows.len();
    print!(rt; "shape={shape} kind={kind} places={PLACES} arrows={rows} reached={reached}")?;
    if timed {
        print!(rt; " micros={micros}")?;
    }
    println!(rt; "")?;
    Ok(())
}

fn main(rt: HostRuntime) -> anyhow::Result<()> {
    let timed = env::args(&rt)?.count() > 1;
    for shape in SHAPES {
        measure(&rt, shape, "yes-or-no", YesNo(true), timed)?;
        measure(&rt, shape, "entry-set", EntrySet(1), timed)?;
    }
    Ok(())
}
