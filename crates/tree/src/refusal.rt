ghost use Rattle.std.specs.Prelude.{◌≡◌};
ghost use Rattle.tree.specs.declared.refusal.OpenError.TheVariants.{NoMemory};
ghost use Rattle.tree.specs.Calls.{number_of, open_number_of};

use std::alloc::AllocError;
use thiserror::Error;

// Why a call is refused, and the refusal's number. `docs/REFUSALS.md` has the conditions.
#[derive(Clone, Copy, Debug, PartialEq, Eq, Error)]
pub enum Refusal {
    #[error("the root is named already, or not yet")]
    WrongTime = 2,
    #[error("no text for a name, or no value for a constant")]
    BadName = 3,
    #[error("the name is listed already, or the list is full")]
    NotListed = 4,
    #[error("no such node or name, or the node is a part already")]
    NoSuchNode = 5,
    #[error("no such node can be")]
    BadNode = 6,
    #[error("an optional mark outside a chain, or a chain without one")]
    LooseMark = 7,
    #[error("too many levels")]
    TooDeep = 8,
    #[error("every place for a node is taken")]
    NoRoom = 10,
    #[error("the output is shorter than the text")]
    ShortOutput = 11,
}

impl Refusal {
    pub fn number(self) -> u8
        ensures { result ≡ number_of self }
    {
        self as u8
    }
}

// Why no tree is opened.
#[derive(Clone, Copy, Debug, PartialEq, Eq, Error)]
pub enum OpenError {
    #[error("too few or too many nodes, or too long a text")]
    OutsideLimits,
    #[error("out of memory")]
    NoMemory,
}

impl OpenError {
    // Want of memory has no number.
    pub fn number(self) -> Option<u8>
        ensures { result ≡ open_number_of self }
    {
        match self {
            OpenError::OutsideLimits => Some(1),
            OpenError::NoMemory => None,
        }
    }
}

impl From<AllocError> for OpenError {
    ghost from_gives = { λ _ e. e ≡ NoMemory };

    fn from(_: AllocError) -> Self {
        Self::NoMemory
    }
}
