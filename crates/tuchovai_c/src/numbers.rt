// The numbers of cases, as they stand in a table or are answered.
ghost use Rattle.std.specs.Prelude.{◌≡◌};
ghost use Rattle.tuchovai_c.specs.Numbers.{wrap_number, helper_number, layer_number, status_number};

use faults::Layer;
use marks::{Helper, WrapKind};

/// What a call came to.
#[derive(Clone, Copy, PartialEq, Eq, Debug)]
pub enum Status {
    Done = 0,
    /// The fault says why.
    Refused = 1,
    NoMemory = 2,
    /// The table that was lent is shorter than what is to be written.
    TableTooShort = 3,
    /// The options' number has a bit that means nothing.
    UnknownOptions = 4,
}

impl From<Status> for u32 {
    ghost from_gives = { λ status number. number ≡ status_number status };

    fn from(status: Status) -> u32 {
        status as u32
    }
}

// Functions for the cases of other crates: `From` between two types of others is not ours to write.
pub fn number_of_wrap(wrap: WrapKind) -> u8
    ensures { result ≡ wrap_number wrap }
{
    wrap as u8
}

pub fn number_of_helper(helper: Helper) -> u8
    ensures { result ≡ helper_number helper }
{
    helper as u8
}

pub fn number_of_layer(layer: Layer) -> u32
    ensures { result ≡ layer_number layer }
{
    layer as u32 + 1
}
