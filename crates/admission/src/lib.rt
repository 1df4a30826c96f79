// The tests of enter and leave, in the papers' order.
#![tactic(auto)]

ghost use Rattle.std.specs.Prelude.{◌≡◌, IfOk};
ghost use Rattle.lists.specs.Tests.{first_of};
ghost use Rattle.answers.specs.Refusals.{told};
ghost use Rattle.trains.specs.EnterLeave.{first_segment, number_tests, entry_tests, exit_tests};

use answers::Refusal;
use tables::Tables;
use trains::{LONGEST_TRAIN, Train, train_at};

// What an enter that passes its tests names: the train, its route, and the segment that is entered, so that the route is not read again.
#[derive(Clone, Copy, Debug, PartialEq, Eq)]
pub struct Entry {
    pub train: u8,
    pub route: u8,
    pub first: u8,
}

// The number that a caller names, as that of a train.
fn train_number(train: u16) -> Result<u8, Refusal>
    ensures tests { told result ≡ first_of (number_tests train) }
    ensures number { IfOk result (λ n. n ≡ train) }
{
    match train {
        1..=24 => Ok(train as u8),
        _ => Err(Refusal::Train),
    }
}

pub fn enter(
    t: &Tables,
    allocations: &[u8; 62],
    trains: &[Train; 24],
    train: u16,
    route: u16,
    speed: u16,
    length: u16,
) -> Result<Entry, Refusal>
    ensures tests { told result ≡ first_of (entry_tests t.now allocations.now trains.now train (record { route = route; length = length }) speed) }
    ensures entry { IfOk result (λ e. (e.train ≡ train) × (e.route ≡ route) × (e.first ≡ first_segment t.now route)) }
{
    let train = train_number(train)?;
    if train_at(trains, train).is_on() {
        return Err(Refusal::AlreadyOn);
    }
    if !(1..=u16::from(t.routes)).contains(&route) {
        return Err(Refusal::RouteNumber);
    }
    if !(1..=LONGEST_TRAIN).contains(&length) {
        return Err(Refusal::Length);
    }
    let route = route as u8;
    let first = t.segment_at(route, 1);
    enter_leave::check_first_segment(t, allocations, first, speed)?;
    Ok(Entry {
        train,
        route,
        first,
    })
}

pub fn leave(t: &Tables, trains: &[Train; 24], train: u16) -> Result<u8, Refusal>
    ensures tests { told result ≡ first_of (exit_tests t.now trains.now train) }
    ensures number { IfOk result (λ n. n ≡ train) }
{
    let train = train_number(train)?;
    let x = train_at(trains, train);
    if !x.is_on() {
        return Err(Refusal::NotOn);
    }
    if !enter_leave::at_exit(t, x) {
        return Err(Refusal::NoExit);
    }
    Ok(train)
}
