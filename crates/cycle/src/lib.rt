// What becomes of all trains and allocations at speed, request and position. All three read where each train stands; position is also
// lent the tables, by which it finds the rear again.
#![tactic(auto)]

ghost use Rattle.std.specs.Prelude.{◌≡◌, ℕ, eqb, if◌then◌else◌};
ghost use Rattle.lists.specs.Words.{at, each};
ghost use Rattle.trains.specs.Train.{train_at};
ghost use Rattle.trains.specs.Cycle.{sped_at, requested_at, moved_in};
ghost use Rattle.standing.specs.Spots.{spot_at};
ghost use Rattle.steps.specs.Room.{Room};
ghost use Rattle.steps.specs.Left.{left_of};

use lists::{each, entry};
use standing::spot_at;
use steps::{left_by, moved_train, released_one, requested_train, sped_train};
use tables::Tables;
use trains::{Spot, Train};

pub fn sped_all(
    braking: u16,
    wishes: &[u16],
    spots: &[Spot; 24],
    trains: &[Train; 24],
) -> [Train; 24]
    ensures { result ≡ each (λ n x. sped_at braking (spot_at spots.now n) (at wishes.now n) x) trains.now }
{
    each(
        trains,
        |n, x| sped_train(braking, spot_at(spots, n), entry(wishes, n as usize, 0), x),
    )
}

pub fn requested_all(spots: &[Spot; 24], trains: &[Train; 24]) -> [Train; 24]
    ensures { result ≡ each (λ n x. requested_at (spot_at spots.now n) x) trains.now }
{
    each(trains, |n, x| requested_train(spot_at(spots, n), x))
}

pub fn moved_all(spots: &[Spot; 24], trains: &[Train; 24]) -> [Train; 24]
    requires { (n : ℕ) → Room (train_at trains.now n) }
    ensures { result ≡ each (λ n x. moved_in (spot_at spots.now n).length x) trains.now }
{
    each(trains, |n, x| moved_train(spot_at(spots, n).length, x))
}

// A segment is freed where it is the one that its holder's rear leaves. The trains are those after the step, the spots those before it.
pub fn released_all(
    t: &Tables,
    spots: &[Spot; 24],
    trains: &[Train; 24],
    allocations: &[u8; 62],
) -> [u8; 62]
    ensures { result ≡ each (λ s h. if eqb (at (each (λ n x. left_of t.now (spot_at spots.now n).rear x) trains.now) h) s then 0 else h) allocations.now }
{
    let left = each(trains, |n, x| left_by(t, spot_at(spots, n).rear, x));
    each(allocations, |s, h| released_one(&left, s, h))
}
