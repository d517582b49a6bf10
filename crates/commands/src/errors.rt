// Why a command has nothing to print but one line on standard error.
ghost use Rattle.std.specs.Prelude.{◌≡◌, MatchResult, IsErr};

use std::alloc::{AllocError, Global};
use std::fmt;

#[derive(Drop)]
pub enum CommandError {
    Message(String),
    NoMemory(AllocError),
}

impl From<AllocError> for CommandError {
    fn from(error: AllocError) -> CommandError {
        CommandError::NoMemory(error)
    }
}

impl From<String> for CommandError {
    fn from(message: String) -> CommandError {
        CommandError::Message(message)
    }
}

/// What was tried with a file. An error becomes a message that begins with the file's name.
pub fn in_file<T: Drop, E: fmt::Display + Drop>(
    heap: Global,
    path: &str,
    tried: Result<T, E>,
) -> Result<T, CommandError>
    ensures { MatchResult tried (λ x. result ≡ Ok x) (λ _. IsErr result) }
{
    tried.try_map_err(|error| -> Result<CommandError, CommandError> {
        Ok(format!(in heap; "{path}: {error}")?.into())
    })
}
