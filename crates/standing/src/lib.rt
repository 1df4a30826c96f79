// Where a train stands.
#![tactic(auto)]

ghost use Rattle.std.specs.Prelude.{◌≡◌, ◌||◌, ltb, eqb};
ghost use Rattle.lists.specs.Words.{at, every};
ghost use Rattle.tables.specs.Tables.{segment_at};
ghost use Rattle.trains.specs.Train.{own_of, next_of, wanted, rear_of};
ghost use Rattle.trains.specs.Spot.{spot_of};
ghost use Rattle.standing.specs.Spots.{no_spot, spots_of, spot_at};

use lists::entry;
use tables::Tables;
use trains::{Spot, Train};

#[tactic(auto, unfolding(trains::specs::Train::own_in))]
pub fn own_of(t: &Tables, x: Train) -> u8
    ensures { result ≡ own_of t.now x }
{
    t.segment_at(x.route, x.place)
}

#[tactic(auto, unfolding(trains::specs::Train::next_in))]
pub fn next_of(t: &Tables, x: Train) -> u8
    ensures { result ≡ next_of t.now x }
{
    if x.place < t.count(x.route) {
        t.segment_at(x.route, x.place + 1)
    } else {
        0
    }
}

// What a train asks for.
#[tactic(auto, unfolding(trains::specs::Train::wanted_in))]
pub fn wanted_of(t: &Tables, x: Train) -> u8
    ensures { result ≡ wanted t.now x }
{
    next_of(t, x)
}

// The place of a train's rear. From its front's place on back along its route, what still lies behind a segment's start is lessened by the
// length of the segment before it, until nothing is left or the route's first segment is come to.
#[tactic(auto, unfolding(trains::specs::Train::rear_in))]
pub fn rear_of(t: &Tables, x: Train) -> u8
    ensures { result ≡ rear_of t.now x }
{
    let mut p = x.place;
    let mut back = u32::from(x.length).saturating_sub(x.position);
    while 1 < p && 0 < back {
        p -= 1;
        back = back.saturating_sub(t.length(t.segment_at(x.route, p)));
    }
    p.max(1)
}

// Segment s is allocated to train n.
fn is_held(allocations: &[u8; 62], s: u8, n: u8) -> bool
    ensures { result ≡ eqb (at allocations.now s) n }
{
    entry(allocations, s as usize, 0) == n
}

// Every segment of the train's route from the rear's place to its front's is allocated to train n.
fn all_held(t: &Tables, allocations: &[u8; 62], x: Train, rear: u8, n: u8) -> bool
    ensures { result ≡ every x.place (λ p. ltb p rear || eqb (at allocations.now (segment_at t.now.routebytes x.route p)) n) }
{
    for p in rear.max(1)..=x.place {
        if !is_held(allocations, t.segment_at(x.route, p), n) {
            return false;
        }
    }
    true
}

#[tactic(auto, unfolding(trains::specs::Train::holds_all_in))]
fn spot_of(t: &Tables, allocations: &[u8; 62], n: u8, x: Train) -> Spot
    ensures { result ≡ spot_of t.now (at allocations.now) n x }
{
    let own = own_of(t, x);
    let next = next_of(t, x);
    let length = t.length(own);
    let rear = rear_of(t, x);
    Spot {
        count: t.count(x.route),
        length,
        limit: t.limit(own),
        rear,
        holdsall: all_held(t, allocations, x, rear, n),
        next,
        nextlimit: t.limit(next),
        holds: 0 < next && is_held(allocations, next, n),
        near: length.saturating_sub(t.margin) <= x.position,
    }
}

// Where a train off stands.
fn nowhere() -> Spot
    ensures { result ≡ no_spot }
{
    Spot::default()
}

// Where each train stands. Of a train off nothing is stored, since the list starts with such trains' spots.
pub fn spots_of(t: &Tables, allocations: &[u8; 62], trains: &[Train; 24]) -> [Spot; 24]
    ensures { result ≡ spots_of t.now allocations.now trains.now }
{
    let mut spots = [nowhere(); 24];
    for (i, &x) in trains.iter().enumerate() {
        if x.is_on() {
            spots[i] = spot_of(t, allocations, i as u8 + 1, x);
        }
    }
    spots
}

// The spot of a train's number; nowhere where there is none.
pub fn spot_at(spots: &[Spot; 24], n: u8) -> Spot
    ensures { result ≡ spot_at spots.now n }
{
    entry(spots, n as usize, nowhere())
}
