//! How a book of bytes is laid out.
ghost use Rattle.std.specs.Prelude.{◌≡◌, ◌≤◌, length, IfSome, option_map};
ghost use Rattle.engine.specs.Stated.{layout_in};
ghost use Rattle.engine.specs.Views.{layout_as};

/// The layout of a book: two bytes for each decision, and 16 for each rule.
#[derive(Clone, Copy)]
pub struct Layout<'a> {
    pub decisions: &'a [[u8; 2]],
    pub records: &'a [[u8; 16]],
}

/// The layout of a book, the number of decisions first; none if the bytes are too few for those, or do not end with a
/// record.
pub fn layout_of(book: &[u8]) -> Option<Layout<'_>>
    ensures value { option_map layout_as result ≡ layout_in book.now }
    ensures few { IfSome result (λ p. length p.decisions.now ≤ 255) }
{
    let (count, behind) = book.split_first()?;
    let (decisions, rules) = behind.split_at_checked(2 * usize::from(*count))?;
    let (decisions, _) = decisions.as_chunks::<2>();
    let (records, rest) = rules.as_chunks::<16>();
    if !rest.is_empty() {
        return None;
    }
    Some(Layout { decisions, records })
}
