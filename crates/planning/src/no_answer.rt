ghost use Rattle.std.specs.Prelude.{◌≡◌, Some};
ghost use Rattle.planning.specs.NoAnswer.{no_answer_text};
ghost use Rattle.planning.specs.declared.no_answer.NoAnswer.TheVariants.{Refused, NoMemory};

use refusal::Refusal;
use std::alloc::{AllocError, AllocFailed};
use std::error::Error;
use std::fmt;

/// Why arguments get no answer.
#[derive(Clone, Copy, Debug, PartialEq, Eq)]
pub enum NoAnswer {
    /// The words are not of the form that the tool takes.
    Usage,
    /// No plan can have these parameters.
    Refused(Refusal),
    /// Memory ran out.
    NoMemory,
}

impl From<Refusal> for NoAnswer {
    ghost from_gives = { λ refusal r. r ≡ Refused refusal };

    fn from(refusal: Refusal) -> Self {
        Self::Refused(refusal)
    }
}

impl From<AllocError> for NoAnswer {
    ghost from_gives = { λ _ r. r ≡ NoMemory };

    fn from(_e: AllocError) -> Self {
        Self::NoMemory
    }
}

impl<T: Drop> From<AllocFailed<T>> for NoAnswer {
    ghost from_gives = { λ _ r. r ≡ NoMemory };

    fn from(failed: AllocFailed<T>) -> Self {
        AllocError::from(failed).into()
    }
}

impl fmt::Display for NoAnswer {
    ghost output = { λ x. Some (no_answer_text x) };

    fn fmt<W: fmt::Write>(&self, f: &mut fmt::Formatter<W>) -> fmt::Result {
        match self {
            NoAnswer::Usage => write!(f, "wrong form"),
            NoAnswer::Refused(refusal) => write!(f, "refusal {refusal}"),
            NoAnswer::NoMemory => write!(f, "memory ran out"),
        }
    }
}

impl Error for NoAnswer {}
