// What a program prints of an answer: a line with its number, its place and its word (docs/FORMATS.md).
#![tactic(auto)]

use answers::Refusal;
use console::say_number;
use std::io;

// Every number that a call answers is 0 or a refusal's; any other has the word `length`.
pub fn say_answer(rt: &impl Print, number: u8, place: u16) -> io::Result<()> {
    say_number(rt, b"", u64::from(number))?;
    say_number(rt, b" ", u64::from(place))?;
    rt.write_all(b" ")?;
    match number {
        0 => println!(rt; "done"),
        _ => {
            let word = Refusal::try_from(number).unwrap_or(Refusal::Length);
            println!(rt; "{word}")
        }
    }
}
