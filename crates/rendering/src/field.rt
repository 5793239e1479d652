//! The fields of a line.
ghost use Rattle.std.specs.Prelude.{◌≡◌, ◌∷◌, decimal};
ghost use Rattle.std.specs.List.{fold};

use crate::Text;
use writing::Sink;

/// The byte that ends a line.
pub const LINE_END: u8 = b'\n';

/// The byte in front of a field.
const SPACE: u8 = b' ';

/// Puts a space and a field.
pub fn put_field<S: Sink, T: Text>(sink: &mut S, field: &T)
    ensures { sink.new ≡ fold S.after sink.old (32 ∷ T.text field.now) }
{
    sink.byte(SPACE);
    field.put(sink);
}

impl Text for u64 {
    ghost text = { decimal };

    /// The decimal digits of a number.
    fn put<S: Sink>(&self, sink: &mut S) {
        sink.number(*self);
    }
}

impl Text for usize {
    ghost text = { decimal };

    /// The decimal digits of a line, a column or a place: by a cast, since `u64` is not `From` a `usize`.
    fn put<S: Sink>(&self, sink: &mut S) {
        sink.number(*self as u64);
    }
}
