// What every program reads and says: an input to its end, a number after a text, and that its output could not be written.
#![tactic(auto)]

ghost use Rattle.std.specs.Prelude.{◌≡◌, ◌<◌, ◌≤◌, length, take, IsNone};
ghost use Rattle.std.specs.Io.KnownBytes.{Consumes, IsAtEnd};

use std::io;
use std::io::Read;

// How many bytes of the buffer were read, and why the input could not be read to its end, where it could not.
#[derive(Clone, Copy)]
pub struct Input {
    pub count: usize,
    pub failed: Option<io::Error>,
}

// Reads an input until it ends, a read fails or the buffer is full. Nothing is read after the end, so that at a terminal it is
// given once. What an input of known bytes gave stands at the front of the buffer, and all of it where the buffer has room left.
pub fn read_input<R: Read>(input: &mut R, buffer: &mut [u8]) -> Input
    ensures in_bounds { result.count ≤ length buffer.new }
    ensures counts { result.count ≡ length (take result.count buffer.new) }
    ensures bytes { Consumes (R.remaining input.old) (R.remaining input.new) (take result.count buffer.new) }
    ensures end { IsNone result.failed → result.count < length buffer.new → IsAtEnd (R.remaining input.new) }
{
    let mut count = 0;
    let mut failed = None;
    while count < buffer.len() {
        match input.read(&mut buffer[count..]) {
            Ok(0) => break,
            Ok(n) => count += n,
            Err(error) => {
                failed = Some(error);
                break;
            }
        }
    }
    Input { count, failed }
}

// A text and a number after it, which is not printed where the text could not be.
pub fn say_number(rt: &impl Print, text: &[u8], number: u64) -> io::Result<()> {
    rt.write_all(text)?;
    print!(rt; "{number}")
}

// What a program says where its output could not be written.
pub fn say_unwritten(stderr: &impl Print, program: &[u8]) {
    let _ = stderr.write_all(program);
    let _ = stderr.write_all(b": the output could not be written\n");
}
