// An area by value, and its calls: each takes the record and hands it back in an outcome. A refusal hands it back as it came. A call
// first examines the record and then works out what it changes of it. For both the record is lent, since it is some 2 KB and each copy of
// it is stack. Report and write hand no record back.
#![tactic(auto)]

ghost use Rattle.std.specs.Prelude.{◌≡◌};
ghost use Rattle.lists.specs.Tests.{first_of};
ghost use Rattle.answers.specs.Refusals.{told};
ghost use Rattle.area.specs.Sound.{sound};
ghost use Rattle.area.specs.Calls.{enter_call, leave_call, speed_call, request_call, grant_call, position_call, reported};
ghost use Rattle.area.specs.Write.{write_tests, write_answer, buffer_after};
ghost use Rattle.area.specs.Examined.{examined, outcome_of};

use answers::{Answer, Refusal};
use lists::with_entry;
use summary::{Summary, summary_of};
use tables::Tables;
use trains::{Spot, Step, Train};

// Allocations: a slot for each segment, 0 or the number of the train that it is allocated to. Trains: a slot for each number.
// The step due: 0 speed, 1 request, 2 grant, 3 position.
#[repr(C)]
#[derive(Clone, Copy)]
pub struct Area {
    pub tables: Tables,
    pub allocations: [u8; 62],
    pub trains: [Train; 24],
    pub due: u8,
}

#[derive(Clone, Copy)]
pub struct Outcome {
    pub answer: Answer,
    pub area: Area,
}

// What a call changes of a record: the rest of it but for the tables, which no call changes.
#[derive(Clone, Copy)]
pub struct Change {
    pub allocations: [u8; 62],
    pub trains: [Train; 24],
    pub due: u8,
}

// Allocated segments counted, and the least free segment, 0 if none; zeros where the record is unsound.
#[derive(Clone, Copy)]
pub struct Report {
    pub answer: Answer,
    pub allocated: u8,
    pub free: u8,
}

impl Area {
    // Where the trains of a sound record stand. Each condition of a sound record in turn: a later one rests on those before it.
    pub fn examine(&self) -> Result<[Spot; 24], Refusal>
        ensures { result ≡ examined self.now }
    {
        let spots = standing::spots_of(&self.tables, &self.allocations, &self.trains);
        if rules::meet(&self.tables)
            && self.due <= Step::Position as u8
            && soundness::trains_sound(&self.tables, self.due, &spots, &self.trains)
            && soundness::allocations_sound(&self.tables, &self.allocations, &spots, &self.trains)
        {
            Ok(spots)
        } else {
            Err(Refusal::Unsound)
        }
    }

    // The record meets every condition of a sound record.
    pub fn sound(&self) -> bool
        ensures { result ≡ sound self.now }
    {
        self.examine().is_ok()
    }

    // ---- what each call changes of a record
    pub fn entering(
        &self,
        train: u16,
        route: u16,
        speed: u16,
        length: u16,
    ) -> Result<Change, Refusal>
        ensures { outcome_of self.now result ≡ enter_call self.now train (record { route = route; length = length }) speed }
    {
        self.examine()?;
        let entry = admission::enter(
            &self.tables,
            &self.allocations,
            &self.trains,
            train,
            route,
            speed,
            length,
        )?;
        let x = Train::entered(entry.route, length, speed);
        Ok(Change {
            allocations: with_entry(&self.allocations, entry.first as usize, entry.train),
            trains: with_entry(&self.trains, entry.train as usize, x),
            due: self.due,
        })
    }

    pub fn leaving(&self, train: u16) -> Result<Change, Refusal>
        ensures { outcome_of self.now result ≡ leave_call self.now train }
    {
        self.examine()?;
        let n = admission::leave(&self.tables, &self.trains, train)?;
        Ok(Change {
            allocations: enter_leave::freed_all(&self.allocations, n),
            trains: with_entry(&self.trains, n as usize, Train::off()),
            due: self.due,
        })
    }

    pub fn speeding(&self, wishes: &[u16]) -> Result<Change, Refusal>
        ensures { outcome_of self.now result ≡ speed_call self.now wishes.now }
    {
        let spots = self.examine()?;
        steps::check_wishes(self.due, wishes.len())?;
        Ok(Change {
            allocations: self.allocations,
            trains: cycle::sped_all(self.tables.braking, wishes, &spots, &self.trains),
            due: Step::Request as u8,
        })
    }

    pub fn requesting(&self) -> Result<Change, Refusal>
        ensures { outcome_of self.now result ≡ request_call self.now }
    {
        let spots = self.examine()?;
        steps::check_due(self.due, Step::Request as u8)?;
        Ok(Change {
            allocations: self.allocations,
            trains: cycle::requested_all(&spots, &self.trains),
            due: Step::Grant as u8,
        })
    }

    pub fn granting(&self) -> Result<Change, Refusal>
        ensures { outcome_of self.now result ≡ grant_call self.now }
    {
        self.examine()?;
        steps::check_due(self.due, Step::Grant as u8)?;
        let allocations = grant::granted_all(&self.tables, &self.trains, &self.allocations);
        Ok(Change {
            allocations,
            trains: grant::calmed_all(&self.tables, &self.allocations, &allocations, &self.trains),
            due: Step::Position as u8,
        })
    }

    pub fn positioning(&self) -> Result<Change, Refusal>
        ensures { outcome_of self.now result ≡ position_call self.now }
    {
        let spots = self.examine()?;
        steps::check_due(self.due, Step::Position as u8)?;
        let trains = cycle::moved_all(&spots, &self.trains);
        Ok(Change {
            allocations: cycle::released_all(&self.tables, &spots, &trains, &self.allocations),
            trains,
            due: Step::Speed as u8,
        })
    }

    // The outcome of what a call changes.
    fn outcome(self, change: Result<Change, Refusal>) -> Outcome
        ensures { result ≡ outcome_of self change }
    {
        match change {
            Ok(change) => {
                let allocations = change.allocations;
                let trains = change.trains;
                Outcome {
                    answer: Answer::Done,
                    area: Area {
                        allocations,
                        trains,
                        due: change.due,
                        ..self
                    },
                }
            }
            Err(refusal) => Outcome {
                answer: refusal.at(0),
                area: self,
            },
        }
    }

    // ---- the calls
    pub fn enter(self, train: u16, route: u16, speed: u16, length: u16) -> Outcome
        ensures { result ≡ enter_call self train (record { route = route; length = length }) speed }
    {
        let change = self.entering(train, route, speed, length);
        self.outcome(change)
    }

    pub fn leave(self, train: u16) -> Outcome
        ensures { result ≡ leave_call self train }
    {
        let change = self.leaving(train);
        self.outcome(change)
    }

    pub fn speed(self, wishes: &[u16]) -> Outcome
        ensures { result ≡ speed_call self wishes.now }
    {
        let change = self.speeding(wishes);
        self.outcome(change)
    }

    pub fn request(self) -> Outcome
        ensures { result ≡ request_call self }
    {
        let change = self.requesting();
        self.outcome(change)
    }

    pub fn grant(self) -> Outcome
        ensures { result ≡ grant_call self }
    {
        let change = self.granting();
        self.outcome(change)
    }

    pub fn position(self) -> Outcome
        ensures { result ≡ position_call self }
    {
        let change = self.positioning();
        self.outcome(change)
    }

    pub fn report(&self) -> Report
        ensures { result ≡ reported self.now }
    {
        if let Err(refusal) = self.examine() {
            return Report {
                answer: refusal.at(0),
                allocated: 0,
                free: 0,
            };
        }
        let Summary { allocated, free } = summary_of(&self.allocations, self.tables.segments);
        Report {
            answer: Answer::Done,
            allocated,
            free,
        }
    }

    // Writes the tables as a file into a buffer, which is else as it was. Trains are not written.
    fn written(&self, buffer: &mut [u8]) -> Result<(), Refusal>
        ensures answer { told result ≡ first_of (write_tests self.now buffer.old) }
        ensures buffer_after { buffer.new ≡ buffer_after self.now buffer.old }
    {
        self.examine()?;
        if buffer.len() != file::FILE_SIZE {
            return Err(Refusal::Buffer);
        }
        encoding::write_tables(&self.tables, buffer);
        Ok(())
    }

    pub fn write(&self, buffer: &mut [u8]) -> Answer
        ensures value { result ≡ write_answer self.now buffer.old }
        ensures buffer_after { buffer.new ≡ buffer_after self.now buffer.old }
    {
        match self.written(buffer) {
            Ok(()) => Answer::Done,
            Err(refusal) => refusal.at(0),
        }
    }
}
