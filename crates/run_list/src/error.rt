// Why a list of calls came to nothing.
ghost use Rattle.std.specs.Prelude.{◌≡◌};
ghost use Rattle.run_list.specs.declared.error.ListError.TheVariants.{Memory, Refused};

use faults::Fault;
use std::alloc::AllocError;

#[derive(Clone, Copy)]
pub enum ListError {
    /// There is no memory for the rows.
    Memory,
    /// Begin was refused, or a call that had to be accepted.
    Refused(Fault),
}

impl From<AllocError> for ListError {
    ghost from_gives = { λ _ r. r ≡ Memory };

    fn from(_e: AllocError) -> ListError {
        ListError::Memory
    }
}

impl From<Fault> for ListError {
    ghost from_gives = { λ f r. r ≡ Refused f };

    fn from(fault: Fault) -> ListError {
        ListError::Refused(fault)
    }
}
