//! What the bytes of a book state.
ghost use Rattle.std.specs.Prelude.{◌≡◌, ◌≤◌, length, option_map};
ghost use Rattle.engine.specs.Stated.{decision_in, decisions_in, kind_in, mark_in, pairs_in, price_in, row_in};

use arrayvec::ArrayVec;
use measure::Price;
use rules::{Decision, Kind, Literal, MOST_PAIRS, Row};

/// The most decisions that a byte can count.
pub const MOST_STATED: usize = 255;

/// Whether a mark states that a decision is on; no mark is above 1. The C interface writes a number for it.
fn is_on(mark: u8) -> Option<bool>
    ensures { result ≡ mark_in mark }
{
    match mark {
        0 => Some(false),
        1 => Some(true),
        _ => None,
    }
}

/// The decision that a size and a mark state, if that is a mark.
fn decision_of(stated: &[u8; 2]) -> Option<Decision>
    ensures { result ≡ decision_in stated.now }
{
    let [size, mark] = *stated;
    let on = is_on(mark)?;
    Some(Decision { size, on })
}

/// The decisions that are stated, each by a size and a mark; none if one is no mark.
pub fn decisions_of(stated: &[[u8; 2]]) -> Option<ArrayVec<Decision, MOST_STATED>>
    requires few { length stated.now ≤ 255 }
    ensures { option_map (λ ds. ds.items) result ≡ decisions_in stated.now }
{
    let mut decisions = ArrayVec::new();
    for pair in stated {
        decisions.push(decision_of(pair)?);
    }
    Some(decisions)
}

/// The kind of rule that a byte states; none above 2. The C interface writes a number for it.
fn kind_of(byte: u8) -> Option<Kind>
    ensures { result ≡ kind_in byte }
{
    match byte {
        0 => Some(Kind::Forbid),
        1 => Some(Kind::Activate),
        2 => Some(Kind::Price),
        _ => None,
    }
}

/// The four pairs of a record, those in use first.
fn pairs_of(bytes: &[u8; 16]) -> [Literal; MOST_PAIRS]
    ensures { result ≡ pairs_in bytes.now }
{
    let [_, _, d0, v0, d1, v1, d2, v2, d3, v3, ..] = *bytes;
    [(d0, v0), (d1, v1), (d2, v2), (d3, v3)].map(|(decision, value)| Literal { decision, value })
}

/// The price of a record.
fn price_of(bytes: &[u8; 16]) -> Price
    ensures { result ≡ price_in bytes.now }
{
    let [.., tier, c0, c1, c2, c3] = *bytes;
    Price {
        tier,
        cents: u32::from_le_bytes([c0, c1, c2, c3]),
    }
}

/// The row that a record states, as it stands there; none if it is of no kind or of more than four pairs. The planner
/// has yet to see whether it makes a rule.
pub fn row_of(bytes: &[u8; 16]) -> Option<Row>
    ensures { result ≡ row_in bytes.now }
{
    let kind = kind_of(bytes[0])?;
    let count = bytes[1];
    if usize::from(count) > MOST_PAIRS {
        return None;
    }
    Some(Row {
        kind,
        count,
        pairs: pairs_of(bytes),
        target: bytes[10],
        price: price_of(bytes),
    })
}
