//! Why a trial fails.

use gm_front::StepError;
use gm_notes::ApplyError;
use std::alloc::{AllocError, AllocFailed};
use std::{fmt, io};
use thiserror::Error;

/// Why a trial fails.
#[derive(Debug, Drop, Error)]
pub enum TrialError {
    /// The arguments are no trial and its settings.
    #[error("invalid arguments")]
    Usage,
    /// The system gave no arguments, script or seed, or took no output.
    #[error("can't read the script, or write the output")]
    Device,
    /// Out of memory, though no growth was refused by the trial.
    #[error("out of memory")]
    Memory,
    /// A step was refused that isn't to be.
    #[error("refused: {0:?}")]
    Refused(StepError),
    /// Growths are refused without end.
    #[error("growths without end")]
    Endless,
    /// If this growth of a piece was refused, the piece wasn't cut as it is to be.
    #[error("growth {growth}: not cut as it is to be")]
    NotCut {
        growth: u32,
    },
    /// The outcome isn't the expected one.
    #[error("{at}: {got}, and not {wanted}")]
    Differs {
        at: u64,
        got: String,
        wanted: String,
    },
}

impl From<AllocError> for TrialError {
    fn from(_e: AllocError) -> TrialError {
        TrialError::Memory
    }
}

impl<T: Drop> From<AllocFailed<T>> for TrialError {
    fn from(_e: AllocFailed<T>) -> TrialError {
        TrialError::Memory
    }
}

impl From<io::Error> for TrialError {
    fn from(_e: io::Error) -> TrialError {
        TrialError::Device
    }
}

impl From<fmt::Error> for TrialError {
    fn from(_e: fmt::Error) -> TrialError {
        TrialError::Memory
    }
}

impl From<StepError> for TrialError {
    fn from(error: StepError) -> TrialError {
        TrialError::Refused(error)
    }
}

impl From<ApplyError> for TrialError {
    fn from(error: ApplyError) -> TrialError {
        TrialError::Refused(StepError::Refused(error))
    }
}
