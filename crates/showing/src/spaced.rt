//! Items with spaces between them.
ghost use Rattle.showing.specs.Texts.{spaced_text};

use std::fmt;

/// Items with a space between each two.
#[derive(Clone, Copy)]
pub struct Spaced<'a, T>(pub &'a [T]);

impl<T: fmt::Display> fmt::Display for Spaced<'_, T> {
    ghost output = { λ items. spaced_text T.output items.0.now };

    fn fmt<W: fmt::Write>(&self, f: &mut fmt::Formatter<W>) -> fmt::Result {
        let Some((first, rest)) = self.0.split_first() else {
            return Ok(());
        };
        first.fmt(f)?;
        for item in rest {
            write!(f, " {item}")?;
        }
        Ok(())
    }
}
