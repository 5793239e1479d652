//! An input read into a buffer of fixed size.
#![tactic(auto)]

ghost use Rattle.std.specs.Prelude.{◌≡◌, ◌≤◌, length, take, IfOk, IfSome};

use std::io;
use std::io::Read;

/// Reads an input into a buffer, until it ends or the buffer is full, and answers what was read: of the bytes that the
/// input would give, where they are known, as many first ones as the buffer has room for.
pub fn read_input<'a, R: Read>(input: &mut R, buffer: &'a mut [u8]) -> io::Result<&'a [u8]>
    ensures first { IfOk result (λ text. IfSome (R.remaining input.old) (λ bytes. text.now ≡ take (length buffer.old) bytes)) }
    ensures few { IfOk result (λ text. length text.now ≤ length buffer.old) }
{
    let mut count = 0;
    while count < buffer.len() {
        let more = input.read(&mut buffer[count..])?;
        if more == 0 {
            break;
        }
        count += more;
    }
    Ok(&buffer[..count])
}
