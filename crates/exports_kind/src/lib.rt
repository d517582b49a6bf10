// What kind of exports each module has, and which modules its records and its own kind wrap.
#![tactic(auto)]

mod determine_module_exports_kind;

pub use determine_module_exports_kind::determine_exports_kinds;
