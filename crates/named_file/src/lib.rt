// The area file that a program is to run: the one that its argument names, or standard input where it has no argument.
#![tactic(auto)]

ghost use Rattle.std.specs.Prelude.{◌≡◌, ◌≤◌, length, take, MatchResult};

use arrayvec::ArrayString;
use std::env::{Env, FillError};
use std::fmt::Write;
use std::fs;
use std::io::{self, ErrorKind, Read};
use std::rt::Files;

// Room for a file and one byte more, so that a longer one is seen to be longer.
pub const ROOM: usize = 2561;

// Why the input could not be read to its end, and how many bytes of the buffer were read before that.
#[derive(Clone, Copy)]
pub struct Unread {
    pub count: usize,
    pub reason: io::Error,
}

// Nothing was read, and why.
fn nothing_read(reason: io::Error) -> Unread
    ensures { result.count ≡ 0 }
{
    Unread { count: 0, reason }
}

// The system's words for an error: std puts its number after them, as in `No such file or directory (os error 2)`.
fn words_of(text: &str) -> &str {
    text.split_once(" (os error ")
        .map_or(text, |(words, _)| words)
}

// Says why what has this name could not be read.
fn fail(rt: &impl Eprint, name: &str, reason: &io::Error) {
    let mut text = ArrayString::<256>::new();
    let _ = write!(text, "{reason}");
    let words = words_of(text.as_str());
    let _ = eprintln!(rt; "{name}: {words}");
}

// Reads what has been opened, and says why where that fails.
fn read_opened<F: Read>(
    rt: &impl Eprint,
    file: &mut F,
    name: &str,
    buffer: &mut [u8],
) -> Result<usize, Unread>
    ensures in_bounds { MatchResult result (λ n. n ≤ length buffer.new) (λ e. e.count ≤ length buffer.new) }
    ensures counts { MatchResult result (λ n. n ≡ length (take n buffer.new)) (λ e. e.count ≡ length (take e.count buffer.new)) }
{
    let input = console::read_input(file, buffer);
    match input.failed {
        None => Ok(input.count),
        Some(reason) => {
            fail(rt, name, &reason);
            Err(Unread {
                count: input.count,
                reason,
            })
        }
    }
}

fn read_named<R: Files + Eprint>(rt: &R, name: &str, buffer: &mut [u8]) -> Result<usize, Unread>
    ensures in_bounds { MatchResult result (λ n. n ≤ length buffer.new) (λ e. e.count ≤ length buffer.new) }
    ensures counts { MatchResult result (λ n. n ≡ length (take n buffer.new)) (λ e. e.count ≡ length (take e.count buffer.new)) }
{
    let mut file = fs::open(rt, name)
        .inspect_err(|reason| fail(rt, name, reason))
        .map_err(nothing_read)?;
    read_opened(rt, &mut file, name, buffer)
}

// The program's argument. A path is text for std, so that a name that is not cannot be opened.
fn argument<'a>(rt: &impl Env, name: &'a mut [u8]) -> io::Result<&'a str> {
    let n = rt.arg(1, name).map_err(|error| match error {
        FillError::TooLong => io::Error::new(ErrorKind::InvalidFilename, "File name too long"),
        FillError::NotPresent => io::Error::new(ErrorKind::InvalidInput, "Invalid argument"),
    })?;
    str::from_utf8(&name[..n]).map_err(|_| io::Error::new(
        ErrorKind::InvalidFilename,
        "not text in UTF-8",
    ))
}

fn read_argument<R: Env + Files + Eprint>(rt: &R, buffer: &mut [u8]) -> Result<usize, Unread>
    ensures in_bounds { MatchResult result (λ n. n ≤ length buffer.new) (λ e. e.count ≤ length buffer.new) }
    ensures counts { MatchResult result (λ n. n ≡ length (take n buffer.new)) (λ e. e.count ≡ length (take e.count buffer.new)) }
{
    let mut name = [0u8; 4096];
    let name = argument(rt, &mut name)
        .inspect_err(|reason| fail(rt, "the file's name", reason))
        .map_err(nothing_read)?;
    read_named(rt, name, buffer)
}

fn has_argument(rt: &impl Env, i: usize) -> bool {
    !matches!(rt.arg(i, &mut []), Err(FillError::NotPresent))
}

// Reads the file to its end or until the buffer is full. Where it cannot be read, standard error has the reason.
pub fn read<R: Env + Files + io::Input + Eprint>(rt: &R, buffer: &mut [u8]) -> Result<usize, Unread>
    ensures in_bounds { MatchResult result (λ n. n ≤ length buffer.new) (λ e. e.count ≤ length buffer.new) }
    ensures counts { MatchResult result (λ n. n ≡ length (take n buffer.new)) (λ e. e.count ≡ length (take e.count buffer.new)) }
{
    if !has_argument(rt, 1) {
        return read_opened(rt, &mut rt.reader(), "standard input", buffer);
    }
    if has_argument(rt, 2) {
        let reason = io::Error::new(
            ErrorKind::InvalidInput,
            "name one file, or none to read standard input",
        );
        let _ = eprintln!(rt; "{reason}");
        return Err(nothing_read(reason));
    }
    read_argument(rt, buffer)
}

// What a program prints in the place of what it would have said of the file.
pub fn say_unread(rt: &impl Print) -> io::Result<()> {
    println!(rt; "the input could not be read")
}
