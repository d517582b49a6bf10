// The rows that the questions are answered from.
use spread::InteropUse;

/// A module was seen to use the namespace of an external module, and how. Namespaces go by their canonical numbers.
#[derive(Clone, Copy)]
pub struct ObserverRow {
    pub namespace: u32,
    pub observer: u32,
    pub uses: InteropUse,
}

/// What an import takes from an external module.
#[derive(Clone, Copy)]
pub enum Specifier {
    /// `import * as winch from 'winch';`
    Namespace,
    /// `import winch from 'winch';`, and `import { default as winch } from 'winch';`
    Default,
    /// `import { hoist } from 'winch';`, by the number of the name.
    Named(u32),
}

/// An import of the external module that is written in the chunk.
#[derive(Clone, Copy)]
pub struct ImportRow {
    pub importer: u32,
    pub specifier: Specifier,
}
