//! The forms of a field.
ghost use Rattle.std.specs.Prelude.{◌≡◌, ◌&&◌, ◌||◌, codes};
ghost use Rattle.std.specs.Str.{bytes_eq};
ghost use Rattle.reading.specs.Numbers.{number_up_to};
ghost use Rattle.statements.specs.Forms.{mark_of, pair_of};

use reading::{number, split_once};
use rules::Literal;

/// Whether a field is this mark word. A match on the words, since that form is asked for.
fn is_mark(word: &str, field: &[u8]) -> bool
    ensures { result ≡ ((bytes_eq word.now (codes "on") || bytes_eq word.now (codes "off")) && bytes_eq word.now field.now) }
{
    match word {
        "on" => field == b"on".as_slice(),
        "off" => field == b"off".as_slice(),
        _ => false,
    }
}

/// The mark that a field is. By `if`: `is_mark` is the match that is asked for.
pub fn mark_of(field: &[u8]) -> Option<bool>
    ensures { result ≡ mark_of field.now }
{
    if is_mark("on", field) {
        Some(true)
    } else if is_mark("off", field) {
        Some(false)
    } else {
        None
    }
}

/// The number up to 255 that a field is.
pub fn byte_of(field: &[u8]) -> Option<u8>
    ensures { result ≡ number_up_to 255 field.now }
{
    u8::try_from(number(field, u32::from(u8::MAX))?).ok()
}

/// The pair that a field is, cut at its first equals sign.
#[tactic(auto, using(crate::proofs::Shapes::paired_is), unfolding(crate::specs::Forms::pair_of))]
pub fn pair_of(field: &[u8]) -> Option<Literal>
    ensures { result ≡ pair_of field.now }
{
    let (decision, value) = split_once(field, b'=')?;
    Some(Literal {
        decision: byte_of(decision)?,
        value: byte_of(value)?,
    })
}
