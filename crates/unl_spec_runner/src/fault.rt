//! The results of a check: its summary or its error.
use thiserror::Error;
use unl_documents::BadDocument;

/// The number of tests that passed, and of tests that failed.
#[derive(Clone, Copy, Debug, PartialEq, Eq)]
pub struct Summary {
    /// The number of tests whose actual result is the expected one.
    pub passed: u64,
    /// The number of all other tests.
    pub failed: u64,
}

/// Why a check has no summary.
#[derive(Debug, Drop, PartialEq, Error)]
pub enum CheckFault {
    /// The input is neither a test file nor an array of test files. Carries the first fault of the input, which is
    /// never `BadDocument::Memory`.
    #[error("the file is not accepted")]
    BadFile(BadDocument),
    /// The input has more than 16,777,216 bytes.
    #[error("the file is too large")]
    TooLarge,
    /// The source, which the input is read from, failed.
    #[error("the input failed")]
    ReadFault,
    /// The sink, which the report is written to, failed.
    #[error("the output failed")]
    WriteFault,
    /// Out of memory.
    #[error("out of memory")]
    Memory,
}
