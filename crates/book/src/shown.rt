//! Small texts, loaded and planned.
ghost use Rattle.book.specs.Shown.{TextsPlanned};

/// Small texts are loaded, refused and planned as stated.
#[tactic(auto, using(crate::proofs::TextsPlanned::texts_planned))]
pub fn small_texts()
    ensures { TextsPlanned }
{}
