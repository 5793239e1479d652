//! What can be written as text.
ghost use Rattle.std.specs.Prelude.{◌≡◌, ℕ, ◌-◌, ◌^◌, ◌≤◌, List, ◌++◌, drop, length, min};
ghost use Rattle.std.specs.List.{flat_map, fold};
ghost use Rattle.rendering.specs.Fills.{counted, filled};

use rules::Refusal;
use writing::{Counter, Filler, Sink};

/// A value that has a text.
pub trait Text {
    ghost text: { Self → List ℕ };

    /// Puts the text into a sink.
    fn put<S: Sink>(&self, sink: &mut S)
        ensures { sink.new ≡ fold S.after sink.old (text self.now) };

    /// Writes the text into a buffer, and answers the byte count; later bytes stay. Refuses a buffer that is too short,
    /// which then stays as it was: the text is counted before it is stored.
    final fn fill(&self, buffer: &mut [u8]) -> Result<usize, Refusal>
        ensures value { result ≡ counted (text self.now) buffer.old }
        ensures after { buffer.new ≡ filled (text self.now) buffer.old }
    {
        let count = byte_count(self);
        if count > buffer.len() {
            return Err(Refusal::ShortText);
        }
        store(self, buffer);
        Ok(count)
    }
}

/// The byte count of a text, up to the largest number.
#[tactic(auto, using(writing::proofs::Fills::counts))]
fn byte_count<T: Text>(item: &T) -> usize
    ensures { result ≡ min (length (T.text item.now)) (2 ^ 64 - 1) }
{
    let mut counter = Counter::default();
    item.put(&mut counter);
    counter.count
}

/// Stores a text that fits from a buffer's start on.
#[tactic(auto, using(writing::proofs::Fills::fills))]
fn store<T: Text>(item: &T, buffer: &mut [u8])
    requires { length (T.text item.now) ≤ length buffer.old }
    ensures { buffer.new ≡ T.text item.now ++ drop (length (T.text item.now)) buffer.old }
{
    let mut filler = Filler::new(buffer);
    item.put(&mut filler);
}

/// Puts texts into a sink, one after the other.
pub fn put_all<T: Text, S: Sink>(items: &[T], sink: &mut S)
    ensures { sink.new ≡ fold S.after sink.old (flat_map T.text items.now) }
{
    for item in items {
        item.put(sink);
    }
}
