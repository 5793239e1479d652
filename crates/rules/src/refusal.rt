//! Why a call is refused.
ghost use Rattle.std.specs.Prelude.{◌≡◌};
ghost use Rattle.rules.specs.Refusals.{number_of, layer_of};

/// A refusal, with its number.
#[derive(Clone, Copy, Debug, PartialEq, Eq)]
pub enum Refusal {
    /// More than 64 decisions.
    TooManyDecisions = 1,
    /// A decision's size is outside 1 to 16.
    SizeOutOfRange = 2,
    /// The pairs are not one to four.
    PairCount = 3,
    /// A pair, a target or what a call asks about is a decision that there is not.
    UnknownDecision = 4,
    /// A pair, or what a call asks about, is a value that its decision has not.
    UnknownValue = 5,
    /// The decisions of the pairs do not strictly ascend.
    NotAscending = 6,
    /// A price rule's cents are over 1,000,000,000.
    CentsTooLarge = 7,
    /// 256 rules of the kind are held.
    TableFull = 8,
    /// No rule of the kind stands at the place.
    NoSuchRule = 9,
    /// The budget is over 1,000,000 steps.
    BudgetTooLarge = 10,
    /// A plan, or the buffer for one, has fewer bytes than there are decisions.
    ShortPlan = 11,
    /// A line's first byte is no kind, or lacks its space.
    UnknownLine = 12,
    /// A field is not of its form.
    MalformedField = 13,
    /// A field is missing, empty or too many, or the line's end is missing.
    FieldCount = 14,
    /// A decision is stated after a rule.
    DecisionAfterRule = 15,
    /// The book is over 65,536 bytes.
    BookTooLarge = 16,
    /// The buffer is too short for the text.
    ShortText = 17,
}

/// The part of the appliance that a refusal comes from.
#[derive(Clone, Copy, Debug, PartialEq, Eq)]
pub enum Layer {
    Text,
    Rule,
    Planner,
}

impl Refusal {
    /// The refusal's number.
    pub fn number(self) -> u8
        ensures { result ≡ number_of self }
    {
        // By a cast: the numbers are those that the definition gives its cases.
        self as u8
    }

    /// The refusal's layer.
    pub fn layer(self) -> Layer
        ensures { result ≡ layer_of (number_of self) }
    {
        match self {
            Refusal::PairCount | Refusal::NotAscending | Refusal::CentsTooLarge => Layer::Rule,
            Refusal::UnknownLine
            | Refusal::MalformedField
            | Refusal::FieldCount
            | Refusal::DecisionAfterRule
            | Refusal::BookTooLarge
            | Refusal::ShortText => Layer::Text,
            Refusal::TooManyDecisions
            | Refusal::SizeOutOfRange
            | Refusal::UnknownDecision
            | Refusal::UnknownValue
            | Refusal::TableFull
            | Refusal::NoSuchRule
            | Refusal::BudgetTooLarge
            | Refusal::ShortPlan => Layer::Planner,
        }
    }
}
