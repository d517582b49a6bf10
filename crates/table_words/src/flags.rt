// What a flag says of its module.
ghost use Rattle.std.specs.Prelude.{◌≡◌, true, false, MatchOption};
ghost use Rattle.table_words.specs.Flags.{flag_of, with_flag};

use crate::words::Flag;
use source::NormalModule;

pub fn has_flag(module: &NormalModule, flag: Flag) -> bool
    ensures { result ≡ flag_of «module».now flag }
{
    match flag {
        Flag::Lazy => module.lazy_export,
        Flag::Await => module.top_level_await,
        Flag::Module => module.module_or_exports,
        Flag::Node => module.node_esm,
        Flag::Entry => module.entry,
    }
}

/// The module with the flag, or none where it has it already.
pub fn raise(before: NormalModule, flag: Flag) -> Option<NormalModule>
    ensures { MatchOption result (flag_of before flag ≡ true) (λ after. (flag_of before flag ≡ false) × (after ≡ with_flag before flag)) }
{
    if has_flag(&before, flag) {
        return None;
    }
    let mut after = before;
    match flag {
        Flag::Lazy => after.lazy_export = true,
        Flag::Await => after.top_level_await = true,
        Flag::Module => after.module_or_exports = true,
        Flag::Node => after.node_esm = true,
        Flag::Entry => after.entry = true,
    }
    Some(after)
}
