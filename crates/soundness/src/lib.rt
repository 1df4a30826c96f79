// The conditions of a sound record on trains and allocations. Of a record handed in nothing is known but what is tested first.
#![tactic(auto)]

ghost use Rattle.std.specs.Prelude.{◌≡◌, true, ◌&&◌, ◌≤◌, leb, eqb, if◌then◌else◌};
ghost use Rattle.lists.specs.Words.{at, each, every, some};
ghost use Rattle.tables.specs.Bounds.{most_segments};
ghost use Rattle.tables.specs.Tables.{segment_at, distance_in, braking_distance};
ghost use Rattle.trains.specs.Train.{most_trains, train_at};
ghost use Rattle.trains.specs.Sound.{place_sound, to_run, braking_sound, asking_sound, stands_sound};
ghost use Rattle.standing.specs.Spots.{spot_at};
ghost use Rattle.soundness.specs.Stopping.{Stopping};
ghost use Rattle.soundness.specs.Covered.{covers, left_over};

use lists::{every, set_entry};
use standing::spot_at;
use tables::Tables;
use trains::{LONGEST_TRAIN, Spot, Step, Train, train_at};

#[tactic(auto, unfolding(trains::specs::Sound::place_sound))]
fn place_sound(routes: u8, spot: Spot, x: Train) -> bool
    ensures { result ≡ place_sound routes spot x }
{
    x.route <= routes
        && (1..=spot.count).contains(&x.place)
        && x.position < spot.length
        && x.speed <= spot.limit
        && (1..=LONGEST_TRAIN).contains(&x.length)
        && spot.holdsall
}

// The way still to run: B(speed) with speed due, S(speed) with another step due.
#[tactic(auto, unfolding(trains::specs::Sound::to_run))]
fn to_run(braking: u16, due: u8, speed: u16) -> u32
    requires { 1 ≤ braking }
    ensures { result ≡ to_run (distance_in braking) due speed }
{
    let distance = braking::braking_distance(speed, braking);
    if due == Step::Speed as u8 {
        distance - u32::from(speed)
    } else {
        distance
    }
}

// The braking sum is worked out only of a train so far along that it matters: before that S(speed) ≤ `d` keeps it within.
#[tactic(auto, unfolding(trains::specs::Sound::braking_sound))]
fn braking_sound(t: &Tables, due: u8, spot: Spot, x: Train) -> bool
    requires { (1 ≤ t.now.braking) × (braking_distance t.now x.speed ≤ t.now.margin) }
    ensures { result ≡ braking_sound (braking_distance t.now) due spot x }
{
    let position = u64::from(x.position);
    let length = u64::from(spot.length);
    if spot.holds {
        due == Step::Speed as u8
            || position + u64::from(x.speed) < length
            || x.speed <= spot.nextlimit
    } else {
        position + u64::from(t.margin) < length
            || position + u64::from(to_run(t.braking, due, x.speed)) < length
    }
}

#[tactic(auto, unfolding(trains::specs::Sound::asking_sound))]
fn asking_sound(due: u8, spot: Spot, x: Train) -> bool
    ensures { result ≡ asking_sound due spot x }
{
    x.asks == u8::from(due == Step::Grant as u8 && spot.wants_next())
}

// Of a train whose place is sound, S(limit) ≤ `d`.
#[tactic(auto, unfolding(trains::specs::Sound::stands_sound))]
fn train_sound(t: &Tables, due: u8, spot: Spot, x: Train) -> bool
    requires { (1 ≤ t.now.braking) × (1 ≤ x.route → place_sound t.now.routes spot x ≡ true → braking_distance t.now spot.limit ≤ t.now.margin) }
    ensures { result ≡ stands_sound t.now.routes (braking_distance t.now) due spot x }
{
    if !x.is_on() {
        return x == Train::default();
    }
    place_sound(t.routes, spot, x) && braking_sound(t, due, spot, x) && asking_sound(due, spot, x)
}

// Tables are tested first: of consistent tables S(`gmax`) ≤ `d`, which gives what is asked here.
pub fn trains_sound(t: &Tables, due: u8, spots: &[Spot; 24], trains: &[Train; 24]) -> bool
    requires { Stopping t.now.routes t.now.braking t.now.margin spots.now trains.now }
    ensures { result ≡ every most_trains (λ n. stands_sound t.now.routes (braking_distance t.now) due (spot_at spots.now n) (train_at trains.now n)) }
{
    every(
        24,
        |n| train_sound(t, due, spot_at(spots, n), train_at(trains, n)),
    )
}

// ---- allocations
// What is under each train and its next, if that is allocated to it, is taken away from the allocations: then nothing may be left. So no
// segment is looked for along a route.

// The segments of a route from the rear's place to the front's are taken away.
fn take_under(t: &Tables, left: &mut [u8; 62], r: u8, rear: u8, place: u8)
    ensures { left.new ≡ each (λ s h. if some place (λ p. leb rear p && eqb (segment_at t.now.routebytes r p) s) then 0 else h) left.old }
{
    for p in rear.max(1)..=place {
        set_entry(left, t.segment_at(r, p) as usize, 0);
    }
}

// What a train may hold is taken away.
fn take_train(t: &Tables, left: &mut [u8; 62], spot: Spot, x: Train)
    ensures { left.new ≡ each (λ s h. if covers t.now.routebytes spot x s then 0 else h) left.old }
{
    if x.is_on() {
        take_under(t, left, x.route, spot.rear, x.place);
        if spot.holds {
            set_entry(left, spot.next as usize, 0);
        }
    }
}

pub fn allocations_sound(
    t: &Tables,
    allocations: &[u8; 62],
    spots: &[Spot; 24],
    trains: &[Train; 24],
) -> bool
    ensures { result ≡ every most_segments (λ s. eqb (left_over t.now.routebytes spots.now trains.now most_trains s (at allocations.now s)) 0) }
{
    let mut left = *allocations;
    for (&spot, &x) in spots.iter().zip(trains) {
        take_train(t, &mut left, spot, x);
    }
    left == [0; 62]
}
