// Why a line is not read as a call.
ghost use Rattle.std.specs.Prelude.{◌≡◌, Some};
ghost use Rattle.script.specs.Wording.{fault_wording};
ghost use Rattle.script.specs.declared.fault.Fault.TheVariants.{Malformed, NoMemory};

use crate::expected::Expected;
use std::alloc::{AllocError, AllocFailed};
use std::error::Error;
use std::fmt;

#[derive(Clone, Copy, Debug, PartialEq, Eq)]
pub enum Fault {
    Malformed(Expected),
    NoMemory,
}

// By hand, as are the conversions below: what they give is part of their contracts.
impl fmt::Display for Fault {
    ghost output = { λ fault. Some (fault_wording fault) };

    fn fmt<W: fmt::Write>(&self, f: &mut fmt::Formatter<W>) -> fmt::Result {
        match self {
            Fault::Malformed(expected) => write!(f, "expected {expected}"),
            Fault::NoMemory => write!(f, "no memory"),
        }
    }
}

impl Error for Fault {}

impl From<Expected> for Fault {
    ghost from_gives = { λ expected fault. fault ≡ Malformed expected };

    fn from(expected: Expected) -> Fault {
        Self::Malformed(expected)
    }
}

impl From<AllocError> for Fault {
    ghost from_gives = { λ _ fault. fault ≡ NoMemory };

    fn from(_refused: AllocError) -> Fault {
        Self::NoMemory
    }
}

impl<T: Drop> From<AllocFailed<T>> for Fault {
    ghost from_gives = { λ _ fault. fault ≡ NoMemory };

    fn from(_refused: AllocFailed<T>) -> Fault {
        Fault::from(AllocError)
    }
}
