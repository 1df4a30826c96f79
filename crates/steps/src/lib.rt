// What one train, and the allocation of one segment, becomes at speed, request and position; the tests of a step.
#![tactic(auto)]

ghost use Rattle.std.specs.Prelude.{◌≡◌, eqb, if◌then◌else◌};
ghost use Rattle.lists.specs.Words.{at};
ghost use Rattle.lists.specs.Tests.{first_of};
ghost use Rattle.answers.specs.Refusals.{told};
ghost use Rattle.trains.specs.Cycle.{due_tests, wish_tests, upper_end, new_speed, sped_at, requested_at, moved_in};
ghost use Rattle.steps.specs.Room.{Room};
ghost use Rattle.steps.specs.Left.{left_of};

use answers::Refusal;
use lists::entry;
use tables::Tables;
use trains::{Spot, Step, Train};

// ---- the tests of a step
pub fn check_due(due: u8, step: u8) -> Result<(), Refusal>
    ensures { told result ≡ first_of (due_tests step due) }
{
    if due == step {
        Ok(())
    } else {
        Err(Refusal::Turn)
    }
}

pub fn check_wishes(due: u8, wishes: usize) -> Result<(), Refusal>
    ensures { told result ≡ first_of (wish_tests due wishes) }
{
    check_due(due, Step::Speed as u8)?;
    if wishes == 24 {
        Ok(())
    } else {
        Err(Refusal::Wishes)
    }
}

// ---- speed
// The highest speed where a train stands: its own limit, and next's too where it is near and has next.
fn upper_end(spot: Spot) -> u16
    ensures { result ≡ upper_end spot }
{
    if spot.near && spot.holds {
        spot.limit.min(spot.nextlimit)
    } else {
        spot.limit
    }
}

#[tactic(auto, unfolding(trains::specs::Cycle::new_speed))]
fn new_speed(braking: u16, spot: Spot, x: Train, wish: u16) -> u16
    ensures { result ≡ new_speed braking spot x wish }
{
    let low = x.speed.saturating_sub(braking);
    if spot.near && !spot.holds {
        low
    } else {
        low.max(upper_end(spot).min(wish))
    }
}

pub fn sped_train(braking: u16, spot: Spot, wish: u16, x: Train) -> Train
    ensures { result ≡ sped_at braking spot wish x }
{
    if x.is_on() {
        x.with_speed(new_speed(braking, spot, x, wish))
    } else {
        x
    }
}

// ---- request
pub fn requested_train(spot: Spot, x: Train) -> Train
    ensures { result ≡ requested_at spot x }
{
    if x.is_on() {
        x.with_asking(spot.wants_next())
    } else {
        x
    }
}

// ---- position
// A train after the step, by the length of its own segment.
#[tactic(auto, unfolding(trains::specs::Cycle::moved_in, trains::specs::Cycle::moves_in))]
pub fn moved_train(length: u32, x: Train) -> Train
    requires { Room x }
    ensures { result ≡ moved_in length x }
{
    let to = x.position + u32::from(x.speed);
    if x.is_on() && length <= to {
        x.moved_to(x.place + 1, to - length)
    } else {
        x.moved_to(x.place, to)
    }
}

// The segment that a train's rear leaves, by the place of the rear before the step and the train after it; 0 where it leaves none.
#[tactic(auto, unfolding(crate::specs::Left::left_in))]
pub fn left_by(t: &Tables, rear: u8, x: Train) -> u8
    ensures { result ≡ left_of t.now rear x }
{
    if x.is_on() && standing::rear_of(t, x) != rear {
        t.segment_at(x.route, rear)
    } else {
        0
    }
}

pub fn released_one(left: &[u8; 24], s: u8, h: u8) -> u8
    ensures { result ≡ (if eqb (at left.now h) s then 0 else h) }
{
    if entry(left, h as usize, 0) == s {
        0
    } else {
        h
    }
}
