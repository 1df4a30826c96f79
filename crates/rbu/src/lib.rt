// What C or Rust links: the core's functions over a lent record and over lent slices of bytes and of 16-bit numbers. A slice is a
// pointer and a length; a result beside the returned one goes through a reference. The layouts are in docs/FORMATS.md, the
// declarations in include/.
#![tactic(auto)]

ghost use Rattle.std.specs.Prelude.{◌≡◌, length};
ghost use Rattle.braking.specs.Distance.{distance_at};
ghost use Rattle.decoding.specs.Decoding.{decoded};
ghost use Rattle.view.specs.View.{view_start, view_count};
ghost use Rattle.answers.specs.Answers.{number_of, place_of};
ghost use Rattle.loading.specs.Load.{loaded};
ghost use Rattle.area.specs.Sound.{sound};
ghost use Rattle.area.specs.Calls.{reported};
ghost use Rattle.separation.specs.Calls.{Enter, Leave, Speed, Request, Grant, Position};
ghost use Rattle.separation.specs.Claim.{Separated};
ghost use Rattle.runs.specs.Ran.{ran_of, written, file_world, file_ran_of, file_written};
ghost use Rattle.state.specs.State.{state_into, record_of};
ghost use Rattle.area.specs.Examined.{outcome_of};
ghost use Rattle.kept.specs.Kept.{Started, Answered};
ghost use Rattle.writing.specs.Writing.{Written};
ghost use Rattle.rbu.specs.After.{area_after, state_after, Continues};

use answers::{Refusal, number_of};
use area::{Area, Change, Report};

// ---- a record that the caller keeps: any bytes are a record. A function is lent it and writes back what the call hands back.
// Loads a file into the record: the number of load's answer; its place goes to `place`.
#[unsafe(no_mangle)]
pub extern "C" fn rbu_start(area: &mut Area, file: &[u8], place: &mut u16) -> u8
    ensures { Started file.now result place.new area.new }
{
    let start = running::start(file);
    *area = start.area;
    answers::tell(start.answer, place)
}

// What a call changes goes into the record, where it is not refused: the number of its answer.
fn keep(area: &mut Area, change: Result<Change, Refusal>) -> u8
    ensures number { result ≡ number_of (outcome_of area.old change).answer }
    ensures area { area.new ≡ (outcome_of area.old change).area }
{
    match change {
        Ok(change) => {
            let Change {
                allocations,
                trains,
                due,
            } = change;
            area.allocations = allocations;
            area.trains = trains;
            area.due = due;
            0
        }
        Err(refusal) => refusal.number(),
    }
}

// The six calls: the number of the answer.
#[unsafe(no_mangle)]
pub extern "C" fn rbu_enter(area: &mut Area, train: u16, route: u16, speed: u16, length: u16) -> u8
    ensures { Answered area.old (Enter train (record { route = route; length = length }) speed) result area.new }
{
    let change = running::enter(area, train, route, speed, length);
    keep(area, change)
}

#[unsafe(no_mangle)]
pub extern "C" fn rbu_leave(area: &mut Area, train: u16) -> u8
    ensures { Answered area.old (Leave train) result area.new }
{
    let change = running::leave(area, train);
    keep(area, change)
}

#[unsafe(no_mangle)]
pub extern "C" fn rbu_speed(area: &mut Area, wishes: &[u16]) -> u8
    ensures { Answered area.old (Speed wishes.now) result area.new }
{
    let change = running::speed(area, wishes);
    keep(area, change)
}

#[unsafe(no_mangle)]
pub extern "C" fn rbu_request(area: &mut Area) -> u8
    ensures { Answered area.old Request result area.new }
{
    let change = running::request(area);
    keep(area, change)
}

#[unsafe(no_mangle)]
pub extern "C" fn rbu_grant(area: &mut Area) -> u8
    ensures { Answered area.old Grant result area.new }
{
    let change = running::grant(area);
    keep(area, change)
}

#[unsafe(no_mangle)]
pub extern "C" fn rbu_position(area: &mut Area) -> u8
    ensures { Answered area.old Position result area.new }
{
    let change = running::position(area);
    keep(area, change)
}

// What both reports tell.
fn tell_report(report: Report, allocated: &mut u8, free: &mut u8) -> u8
    ensures { (result ≡ number_of report.answer) × ((allocated.new ≡ report.allocated) × (free.new ≡ report.free)) }
{
    *allocated = report.allocated;
    *free = report.free;
    number_of(report.answer)
}

// The number of the answer to a report; its two numbers go to `allocated` and `free`.
#[unsafe(no_mangle)]
pub extern "C" fn rbu_report(area: &Area, allocated: &mut u8, free: &mut u8) -> u8
    ensures { (result ≡ number_of (reported area.now).answer) × ((allocated.new ≡ (reported area.now).allocated) × (free.new ≡ (reported area.now).free)) }
{
    tell_report(running::report(area), allocated, free)
}

// The record meets every condition of a sound record.
#[unsafe(no_mangle)]
pub extern "C" fn rbu_is_sound(area: &Area) -> bool
    ensures { result ≡ sound area.now }
{
    area.sound()
}

// Writes the tables of the record as a file into a buffer: the number of the answer.
#[unsafe(no_mangle)]
pub extern "C" fn rbu_write(area: &Area, buffer: &mut [u8]) -> u8
    ensures { Written area.now buffer.old result buffer.new }
{
    number_of(writing::write(*area, buffer))
}

// ---- files
// The number of load's answer to a file; its place goes to `place`.
#[unsafe(no_mangle)]
pub extern "C" fn rbu_load(file: &[u8], place: &mut u16) -> u8
    ensures { (result ≡ number_of (loaded file.now).answer) × (place.new ≡ place_of (loaded file.now).answer) }
{
    answers::tell(loading::load(file).answer, place)
}

// Where the view of a route starts in the file, and how many bytes it has; both 0 where it is empty.
#[unsafe(no_mangle)]
pub extern "C" fn rbu_view(file: &[u8], route: u16, start: &mut u32, count: &mut u32)
    ensures { (start.new ≡ view_start file.now route) × (count.new ≡ view_count file.now route) }
{
    view::tell_view(file, route, start, count);
}

// ---- a list of calls from a file
// Runs a script from a file. Returns how many calls were run; their answers' numbers go to `answers`, the state after them to
// `state`, load's answer to `number` and `place`. Where load refuses the file, no call is run, and `answers` and `state` are as
// they were.
#[unsafe(no_mangle)]
pub extern "C" fn rbu_run_file(
    file: &[u8],
    script: &[u16],
    answers: &mut [u8],
    state: &mut [u8],
    number: &mut u8,
    place: &mut u16,
) -> usize
    ensures value { result ≡ (file_ran_of file.now script.now (length answers.old)).calls }
    ensures answers_after { answers.new ≡ file_written file.now script.now answers.old }
    ensures state_after { state.new ≡ state_after file.now script.now (length answers.old) state.old }
    ensures number_after { (number.new ≡ number_of (loaded file.now).answer) × (place.new ≡ place_of (loaded file.now).answer) }
    ensures continues { number_of (loaded file.now).answer ≡ 0 → Continues file.now state.old state.new (area_after file.now script.now (length answers.old)) }
    ensures separated { number_of (loaded file.now).answer ≡ 0 → Separated (decoded file.now) (file_world file.now script.now (length answers.old)) }
{
    let ran = runs::run_file(file, script, answers);
    let n = answers::tell(ran.answer, place);
    *number = n;
    if n == 0 {
        state::write_state(&ran.area, state);
    }
    ran.calls
}

// ---- any record at all: tables that a file's bytes spell, with no rule tested, and a state
// Runs a script from such a record. Returns how many calls were run; the state after them goes to `state`.
#[unsafe(no_mangle)]
pub extern "C" fn rbu_run_record(
    file: &[u8],
    script: &[u16],
    answers: &mut [u8],
    state: &mut [u8],
) -> usize
    ensures value { result ≡ (ran_of (record_of file.now state.old) script.now (length answers.old)).calls }
    ensures answers_after { answers.new ≡ written (record_of file.now state.old) script.now answers.old }
    ensures state_after { state.new ≡ state_into (ran_of (record_of file.now state.old) script.now (length answers.old)).area state.old }
    ensures continues { Continues file.now state.old state.new (ran_of (record_of file.now state.old) script.now (length answers.old)).area }
{
    let run = runs::run(state::record_of(file, state), script, answers);
    state::write_state(&run.area, state);
    run.calls
}

// Not inlined: the copy of the record that the test is lent, 2 KB, stands on the stack only once what read it is done.
#[inline(never)]
fn is_sound(area: Area) -> bool
    ensures { result ≡ sound area }
{
    area.sound()
}

#[unsafe(no_mangle)]
pub extern "C" fn rbu_sound(file: &[u8], state: &[u8]) -> bool
    ensures { result ≡ sound (record_of file.now state.now) }
{
    is_sound(state::record_of(file, state))
}

#[unsafe(no_mangle)]
pub extern "C" fn rbu_report_record(
    file: &[u8],
    state: &[u8],
    allocated: &mut u8,
    free: &mut u8,
) -> u8
    ensures value { result ≡ number_of (reported (record_of file.now state.now)).answer }
    ensures allocated_after { allocated.new ≡ (reported (record_of file.now state.now)).allocated }
    ensures free_after { free.new ≡ (reported (record_of file.now state.now)).free }
{
    tell_report(
        running::report(&state::record_of(file, state)),
        allocated,
        free,
    )
}

#[unsafe(no_mangle)]
pub extern "C" fn rbu_write_record(file: &[u8], state: &[u8], buffer: &mut [u8]) -> u8
    ensures { Written (record_of file.now state.now) buffer.old result buffer.new }
{
    number_of(writing::write(state::record_of(file, state), buffer))
}

// ---- braking
// S(speed) at a rate of braking; 0 at a rate of 0.
#[unsafe(no_mangle)]
pub extern "C" fn rbu_braking_distance(rate: u16, speed: u16) -> u32
    ensures { result ≡ distance_at rate speed }
{
    braking::distance_at(rate, speed)
}
