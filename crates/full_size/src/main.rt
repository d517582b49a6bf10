// The largest sources that are allowed, by their shape: each is written as a card, checked, and classified as the card
// reads. `full_size time` also prints how long classifying took.
#![tactic(auto)]

mod shapes;
mod tally;

use anyhow::anyhow;
use card::{CardSource, check_card};
use card_image::{ImageError, card_image};
use classify::classify;
use marks::{LinkOptions, OutputFormat};
use row_source::RowSource;
use shapes::{SHAPES, Shape, rows_of};
use std::alloc::Global;
use std::env;
use std::time::Instant;
use tally::Tally;

// As plain as those of `link_words`, which this program does not need.
const OPTIONS: LinkOptions = LinkOptions {
    format: OutputFormat::Esm,
    splitting_off: false,
    strict_order: false,
    manual_groups: false,
    profiler_names: false,
};

// The card of a shape.
fn card_of(heap: Global, shape: Shape) -> anyhow::Result<Vec<u8>> {
    let rows = rows_of(heap, shape)?;
    let (modules, records) = (rows.modules.as_slice(), rows.records.as_slice());
    let source = RowSource::open(0, modules, records);
    card_image(heap, &source).map_err(|error| match error {
        ImageError::Refused(_) => anyhow!("not written"),
        ImageError::NoMemory(error) => error.into(),
    })
}

fn run_shape(rt: &HostRuntime, shape: Shape, timed: bool) -> anyhow::Result<()> {
    let heap = rt.alloc();
    let image = card_of(heap, shape)?;
    check_card(image.as_slice()).map_err(|_| anyhow!("a card that was written is refused"))?;
    let source = CardSource::open(image.as_slice());
    let start = Instant::now(rt)?;
    let done = classify(heap, &source, OPTIONS).map_err(|_| anyhow!("a lawful source is refused"))?;
    let taken = start.elapsed(rt)?;
    let bytes = image.len();
    let tally = Tally::of(&done);
    println!(rt; "full-size shape={shape} bytes={bytes} {tally}")?;
    if timed {
        let micros = taken.as_micros();
        println!(rt; "  {micros} microseconds")?;
    }
    Ok(())
}

fn main(rt: HostRuntime) -> anyhow::Result<()> {
    let timed = env::args(&rt)?.any(|word| word.as_str() == "time");
    for shape in SHAPES {
        run_shape(&rt, shape, timed)?;
    }
    Ok(())
}
