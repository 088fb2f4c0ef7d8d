//! Why a record isn't added.

use thiserror::Error;

/// Why a record isn't added to a file. But for `Device` the file and what was opened are as before.
#[derive(Clone, Copy, Debug, PartialEq, Eq, Error)]
pub enum AppendError {
    /// The device failed in an append before: the file must be opened anew.
    #[error("Reopen")]
    Reopen,
    #[error("NoRecordVariable")]
    NoRecordVariable,
    /// The record variables don't stand one after another, or the file ends more than three bytes before the record
    /// that would be added, as one without records may.
    #[error("NotPacked")]
    NotPacked,
    /// The number of records is indeterminate.
    #[error("Streaming")]
    Streaming,
    /// With one more record the count would be the streaming mark, or the file longer than 2^63 - 1 bytes.
    #[error("CountFull")]
    CountFull,
    /// The first record variable, counted from 0, whose values are missing, of another type or of another number; or
    /// how many there are, where there are more values.
    #[error("WrongValues {0}")]
    WrongValues(usize),
    #[error("Device")]
    Device,
    #[error("Memory")]
    Memory,
}
