//! Reading text: the pieces between one byte and the next, and numbers.

#![tactic(auto)]

mod numbers;
mod pieces;

pub use numbers::number;
pub use pieces::{Piece, Pieces, split_once};
