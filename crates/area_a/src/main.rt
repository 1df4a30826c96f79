// Document 01's run of Area A: reads the file that is named, or standard input, enters train 1 on route 1 and train 2 on route 2,
// runs six cycles and lists where both trains are after each. A refusal is one line, and the listing goes no further.
#![tactic(auto)]

use answers::Answer;
use area::{Area, Outcome};
use console::say_number;
use std::env::Env;
use std::io;
use std::rt::Files;

// Why the listing goes no further: a call is refused, or a line could not be written.
enum Stop {
    Refused { call: &'static str, answer: Answer },
    Unwritten(io::Error),
}

impl From<io::Error> for Stop {
    fn from(error: io::Error) -> Stop {
        Stop::Unwritten(error)
    }
}

// The area that a call hands back, where it is done.
fn done(call: &'static str, outcome: Outcome) -> Result<Area, Stop> {
    match outcome.answer {
        Answer::Done => Ok(outcome.area),
        answer => Err(Stop::Refused { call, answer }),
    }
}

// The area with both trains on it. Not inlined, as a cycle is not: each area by value takes 2 KB of stack, which is then free again.
#[inline(never)]
fn enter_both(file: &[u8]) -> Result<Area, Stop> {
    let loaded = done("load", loading::load(file))?;
    let one = done("enter of train 1", loaded.enter(1, 1, 250, 1))?;
    done("enter of train 2", one.enter(2, 2, 200, 1))
}

#[inline(never)]
fn run_cycle(area: Area) -> Result<Area, Stop> {
    let sped = done("speed", area.speed(&[300; 24]))?;
    let requested = done("request", sped.request())?;
    let granted = done("grant", requested.grant())?;
    done("position", granted.position())
}

fn list_train(rt: &impl Print, cycle: u8, area: &Area, train: u8) -> io::Result<()> {
    let x = trains::train_at(&area.trains, train);
    let segment = standing::own_of(&area.tables, x);
    say_number(rt, b"", u64::from(cycle))?;
    say_number(rt, b" ", u64::from(train))?;
    say_number(rt, b" ", u64::from(segment))?;
    say_number(rt, b" ", u64::from(x.position))?;
    say_number(rt, b" ", u64::from(x.speed))?;
    rt.write_all(b"\n")
}

fn list(rt: &impl Print, file: &[u8]) -> Result<(), Stop> {
    let mut area = enter_both(file)?;
    println!(rt; "cycle train segment position speed")?;
    for cycle in 1..=6 {
        area = run_cycle(area)?;
        list_train(rt, cycle, &area, 1)?;
        list_train(rt, cycle, &area, 2)?;
    }
    Ok(())
}

fn run_file(rt: &impl Print, file: &[u8]) -> io::Result<()> {
    match list(rt, file) {
        Ok(()) => Ok(()),
        Err(Stop::Refused { call, answer }) => {
            rt.write_all(call.as_bytes())?;
            rt.write_all(b": ")?;
            wording::say_answer(rt, answers::number_of(answer), answers::place_of(answer))
        }
        Err(Stop::Unwritten(error)) => Err(error),
    }
}

fn run_named<R: Env + Files + Input + Print + Eprint>(rt: &R) -> io::Result<()> {
    let mut buffer = [0u8; named_file::ROOM];
    match named_file::read(rt, &mut buffer) {
        Ok(count) => run_file(rt, &buffer[..count]),
        Err(_) => named_file::say_unread(rt),
    }
}

// Where the output cannot be written nothing more is printed, and the program says so and ends.
fn main(rt: HostRuntime) {
    if run_named(&rt).is_err() {
        console::say_unwritten(&rt.stderr(), b"area_a");
    }
}
