// The rows of a source. Record rows are import records as they stand.
use source::Module;

/// A module, and which record rows are its own: `count` of them from row `first` on.
#[derive(Clone, Copy, PartialEq, Eq, Debug)]
pub struct ModuleRow {
    pub described: Module,
    pub first: u32,
    pub count: u32,
}
