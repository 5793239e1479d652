//! Lines and texts: a line is read as what it states and only that, and a text is its lines. Each
//! theorem is the contract of a function that has nothing to do.
#![tactic(auto)]

ghost use Rattle.grammar.specs.Laws.{LinesOfText, ReadsOnlyText, TextIsRead, TextOfLines};
ghost use Rattle.grammar.specs.Shown.{TrickyLines};
ghost use Rattle.grammar.specs.Written.{AllWritten};

/// A line is read as what it states, and only that.
pub fn lines_are_read_back()
    ensures only { ReadsOnlyText }
    ensures back { TextIsRead }
{}

/// A text is its lines.
pub fn texts_are_lines()
    ensures lines { LinesOfText }
    ensures text { TextOfLines }
{}

/// Tricky lines, and what each states or why it is refused.
pub fn tricky_lines()
    ensures { TrickyLines }
{}

/// The texts of a book, of faults and of outcomes, written out, and texts written into a buffer.
#[tactic(auto, using(crate::proofs::TextsShown::all_written))]
pub fn written_texts()
    ensures { AllWritten }
{}
