// From a file to an area, or to the blank record with what is wrong with the file. The file is lent and only read.
#![tactic(auto)]

ghost use Rattle.std.specs.Prelude.{◌≡◌};
ghost use Rattle.loading.specs.Load.{fresh, loaded};

use answers::Answer;
use area::{Area, Outcome};
use tables::Tables;
use trains::{Step, Train};

#[tactic(auto, unfolding(crate::specs::Load::fresh))]
fn fresh_area(tables: Tables) -> Area
    ensures { result ≡ fresh tables }
{
    Area {
        tables,
        allocations: [0; 62],
        trains: [Train::off(); 24],
        due: Step::Speed as u8,
    }
}

// The area of a file, or the blank record with the number and the place of the first rule that the file breaks.
pub fn load(file: &[u8]) -> Outcome
    ensures { result ≡ loaded file.now }
{
    match judging::read(file) {
        Ok(tables) => Outcome {
            answer: Answer::Done,
            area: fresh_area(tables),
        },
        Err(fault) => Outcome {
            answer: fault.refusal.at(fault.place),
            area: fresh_area(Tables::blank()),
        },
    }
}
