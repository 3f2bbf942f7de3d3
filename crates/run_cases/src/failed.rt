// Why the cases end early: a call is refused that none of them wants refused, or the output cannot be written.
use ins2651_rules::Refusal;
use joined_rules::TooLong;
use std::io;
use thiserror::Error;

#[derive(Debug, Drop, Error)]
pub(crate) enum Failed {
    #[error("refused: {0:?}")]
    Refused(#[from] Refusal),
    #[error("refused: {0:?}")]
    TooLong(#[from] TooLong),
    #[error(transparent)]
    Unwritten(#[from] io::Error),
}
