//! Why a program stops.
use rules::Refusal;
use std::io;
use thiserror::Error;

/// A refusal where none is due, or output that fails.
#[derive(Debug, Drop, Error)]
pub enum Trouble {
    #[error("{0}")]
    Refused(#[from] Refusal),
    #[error("{0}")]
    Output(#[from] io::Error),
}
