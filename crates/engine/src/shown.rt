//! Small books of bytes.
ghost use Rattle.engine.specs.Shown.{BooksShown};

/// Small books of bytes come to what is stated, or are answered by the number of their fault.
#[tactic(auto, using(crate::proofs::BooksShown::books_shown))]
pub fn small_books()
    ensures { BooksShown }
{}
