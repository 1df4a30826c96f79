// The calls on a record that a caller keeps between them: what each changes of the record, or its refusal. `Started` and `Answered` say
// what each does, and what holds of a record that was started by load and handed from call to call.
#![tactic(auto)]

ghost use Rattle.std.specs.Prelude.{◌≡◌};
ghost use Rattle.answers.specs.Answers.{number_of, place_of};
ghost use Rattle.area.specs.Calls.{reported};
ghost use Rattle.separation.specs.Calls.{Enter, Leave, Speed, Request, Grant, Position};
ghost use Rattle.area.specs.Examined.{outcome_of};
ghost use Rattle.kept.specs.Kept.{Started, Answered};

use answers::Refusal;
use area::{Area, Change, Outcome, Report};

#[tactic(auto, using(kept::proofs::Laws::started))]
pub fn start(file: &[u8]) -> Outcome
    ensures { Started file.now (number_of result.answer) (place_of result.answer) result.area }
{
    loading::load(file)
}

pub fn enter(
    area: &Area,
    train: u16,
    route: u16,
    speed: u16,
    length: u16,
) -> Result<Change, Refusal>
    ensures { Answered area.now (Enter train (record { route = route; length = length }) speed) (number_of (outcome_of area.now result).answer) (outcome_of area.now result).area }
{
    area.entering(train, route, speed, length)
}

pub fn leave(area: &Area, train: u16) -> Result<Change, Refusal>
    ensures { Answered area.now (Leave train) (number_of (outcome_of area.now result).answer) (outcome_of area.now result).area }
{
    area.leaving(train)
}

pub fn speed(area: &Area, wishes: &[u16]) -> Result<Change, Refusal>
    ensures { Answered area.now (Speed wishes.now) (number_of (outcome_of area.now result).answer) (outcome_of area.now result).area }
{
    area.speeding(wishes)
}

pub fn request(area: &Area) -> Result<Change, Refusal>
    ensures { Answered area.now Request (number_of (outcome_of area.now result).answer) (outcome_of area.now result).area }
{
    area.requesting()
}

pub fn grant(area: &Area) -> Result<Change, Refusal>
    ensures { Answered area.now Grant (number_of (outcome_of area.now result).answer) (outcome_of area.now result).area }
{
    area.granting()
}

pub fn position(area: &Area) -> Result<Change, Refusal>
    ensures { Answered area.now Position (number_of (outcome_of area.now result).answer) (outcome_of area.now result).area }
{
    area.positioning()
}

pub fn report(area: &Area) -> Report
    ensures { result ≡ reported area.now }
{
    area.report()
}
