//! What the tests of headers share.

use ncc_header::{Header, HeaderError};

pub fn length_of(answer: Result<Header, HeaderError>) -> Result<u64, HeaderError> {
    match answer {
        Ok(header) => Ok(header.length),
        Err(error) => Err(error),
    }
}
