// How the bundle is to be made.
ghost use Rattle.std.specs.Prelude.{◌≡◌};
ghost use Rattle.marks.specs.Records.{acts_as_require};

use source::ImportKind;

/// What the bundle is written as.
#[derive(Clone, Copy, PartialEq, Eq, Debug)]
pub enum OutputFormat {
    /// `export { .. };`
    Esm,
    /// `module.exports = ..;`
    Cjs,
    /// `(function () { .. })();`
    Iife,
    /// `(function (global, factory) { .. })(..);`
    Umd,
}

#[derive(Clone, Copy, PartialEq, Eq, Debug)]
pub struct LinkOptions {
    pub format: OutputFormat,
    /// `import()` pulls its target into the same file.
    pub splitting_off: bool,
    /// Modules run in the order of the script, whatever chunk they are in.
    pub strict_order: bool,
    /// Chunks are grouped by hand.
    pub manual_groups: bool,
    /// Wrappers carry the module's name.
    pub profiler_names: bool,
}

impl LinkOptions {
    /// `require('./bar.js')`, and `import('./bar.js')` where it pulls its target into the same file.
    pub fn acts_as_require(self, kind: ImportKind) -> bool
        ensures { result ≡ acts_as_require self kind }
    {
        // By cases: one of them goes by the options.
        match kind {
            ImportKind::Require => true,
            ImportKind::DynamicImport => self.splitting_off,
            _ => false,
        }
    }
}
