// The calls that a link is asked for after it began.
use faults::Fault;

/// A pass over the modules.
#[derive(Clone, Copy)]
pub enum Pass {
    Kinds,
    Star,
    Wrap,
    Await,
    Entries,
}

/// A call in a list of calls: what it is asked for and lent, and what it was answered.
#[derive(Clone, Copy)]
pub struct Asked {
    pub pass: Pass,
    /// How many of the lent arrows it may use.
    pub arrows: usize,
    /// How many places of each other work slice it may use.
    pub places: usize,
    /// How many rows of the result list it may use.
    pub results: usize,
    /// The fault, or how many rows it wrote; none before the call is made.
    pub answer: Option<Result<usize, Fault>>,
}
