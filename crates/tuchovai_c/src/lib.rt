// The library as C and Rust link it: cards in, faults and tables of rows out.
#![tactic(auto)]

mod calls;
mod numbers;
mod options;
mod rows;
mod table;

pub use calls::{
    TuchovaiFault, tuchovai_check_card, tuchovai_classify, tuchovai_rewrite_card,
    tuchovai_table_size,
};
pub use numbers::Status;
