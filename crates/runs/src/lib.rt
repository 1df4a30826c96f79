// Runs a script of calls: from an area record, and from a file. What the runs come to is what `separation` says of the list of
// calls that the script spells.
#![tactic(auto)]

ghost use Rattle.std.specs.Prelude.{◌≡◌, true, false, length};
ghost use Rattle.std.specs.Option.{MatchOption};
ghost use Rattle.decoding.specs.Decoding.{decoded};
ghost use Rattle.answers.specs.Answers.{number_of};
ghost use Rattle.separation.specs.Calls.{called};
ghost use Rattle.separation.specs.Claim.{Separated};
ghost use Rattle.runs.specs.Script.{is_call, call_of};
ghost use Rattle.runs.specs.Spelled.{spelled};
ghost use Rattle.runs.specs.Ran.{ran_of, written, file_world, file_ran_of, file_written};

use answers::{Answer, number_of};
use area::{Area, Outcome};
use loading::load;

// A call as a record of a script spells it.
#[derive(Clone, Copy)]
enum Call<'a> {
    Enter {
        train: u16,
        route: u16,
        speed: u16,
        length: u16,
    },
    Leave {
        train: u16,
    },
    Speed {
        wishes: &'a [u16],
    },
    Request,
    Grant,
    Position,
}

// The record after the calls, and how many were run.
#[derive(Clone, Copy)]
pub struct Ran {
    pub area: Area,
    pub calls: usize,
}

// The answer to the file, and what the calls come to; where the file is refused, the blank record and no call.
#[derive(Clone, Copy)]
pub struct FileRan {
    pub answer: Answer,
    pub area: Area,
    pub calls: usize,
}

// The call of a whole record; none where it is of another kind.
#[tactic(auto, unfolding(crate::specs::Script::is_call, crate::specs::Script::call_of, crate::specs::Script::wishes_of))]
fn call_of(items: &[u16; 32]) -> Option<Call<'_>>
    ensures { MatchOption result (is_call items.now ≡ false) (λ c. (is_call items.now ≡ true) × (spelled c ≡ call_of items.now)) }
{
    let [kind, train, route, speed, length, _, count, ..] = *items;
    match kind {
        1 => Some(Call::Enter {
            train,
            route,
            speed,
            length,
        }),
        2 => Some(Call::Leave { train }),
        3 => Some(Call::Speed {
            wishes: &items[7..7 + count.min(25) as usize],
        }),
        4 => Some(Call::Request),
        5 => Some(Call::Grant),
        6 => Some(Call::Position),
        _ => None,
    }
}

impl Call<'_> {
    #[tactic(auto, unfolding(separation::specs::Calls::called))]
    fn on(self, area: Area) -> Outcome
        ensures { result ≡ called area (spelled self.entry) }
    {
        match self {
            Call::Enter {
                train,
                route,
                speed,
                length,
            } => area.enter(train, route, speed, length),
            Call::Leave { train } => area.leave(train),
            Call::Speed { wishes } => area.speed(wishes),
            Call::Request => area.request(),
            Call::Grant => area.grant(),
            Call::Position => area.position(),
        }
    }
}

// Each call is handed the record that the one before handed back, after a refusal too. It ends at the end of the script or when
// there is no room for another answer.
pub fn run(area: Area, script: &[u16], answers: &mut [u8]) -> Ran
    ensures value { result ≡ ran_of area script.now (length answers.old) }
    ensures answers_after { answers.new ≡ written area script.now answers.old }
{
    let mut area = area;
    let mut calls = 0;
    let mut rest = script;
    for answer in answers.iter_mut() {
        let Some((items, after)) = rest.split_first_chunk() else {
            break;
        };
        let Some(call) = call_of(items) else { break };
        let outcome = call.on(area);
        *answer = number_of(outcome.answer);
        area = outcome.area;
        calls += 1;
        rest = after;
    }
    Ran { area, calls }
}

// The inspectorate's question, answered by one contract: whatever the bytes and the script, where load answers done, what is
// claimed of a list of calls holds of the one that was run.
pub fn run_file(file: &[u8], script: &[u16], answers: &mut [u8]) -> FileRan
    ensures value { result ≡ file_ran_of file.now script.now (length answers.old) }
    ensures answers_after { answers.new ≡ file_written file.now script.now answers.old }
    ensures separated { number_of result.answer ≡ 0 → Separated (decoded file.now) (file_world file.now script.now (length answers.old)) }
{
    let Outcome { answer, area } = load(file);
    if let Answer::Refused { .. } = answer {
        return FileRan {
            answer,
            area,
            calls: 0,
        };
    }
    let ran = run(area, script, answers);
    FileRan {
        answer,
        area: ran.area,
        calls: ran.calls,
    }
}
