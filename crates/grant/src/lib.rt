// What becomes of the trains and of the allocations at grant.
#![tactic(auto)]

ghost use Rattle.std.specs.Prelude.{◌≡◌, ◌||◌, if◌then◌else◌};
ghost use Rattle.lists.specs.Words.{at, each, tabulate};
ghost use Rattle.trains.specs.Order.{goes_before};
ghost use Rattle.trains.specs.Grant.{asked, train_count, served, granted, was_granted, count_after, calmed};

use lists::{each, entry, set_entry};
use tables::Tables;
use trains::{Train, train_at};

// The segment that a train asks for; 0 where it asks for none.
#[tactic(auto, unfolding(trains::specs::Grant::asked))]
fn asked_by(t: &Tables, x: Train) -> u8
    ensures { result ≡ asked t.now x }
{
    if x.asks == 1 {
        standing::wanted_of(t, x)
    } else {
        0
    }
}

// ---- who is served
// Train n goes before train m.
#[tactic(auto, unfolding(trains::specs::Order::goes_before))]
fn goes_before(trains: &[Train; 24], n: u8, m: u8) -> bool
    ensures { result ≡ goes_before (train_count trains.now) n m }
{
    let own = train_at(trains, n).count;
    let other = train_at(trains, m).count;
    (other, m) < (own, n)
}

// Of each segment the train that goes before all others that ask for it; 0 where none does.
fn first_askers(t: &Tables, trains: &[Train; 24]) -> [u8; 62]
    ensures { result ≡ tabulate 62 (served t.now trains.now) }
{
    let mut first = [0; 62];
    for n in 1..=24 {
        // 0, which is no entry, where it asks for none
        let s = asked_by(t, train_at(trains, n)) as usize;
        let u = entry(&first, s, 0);
        if u == 0 || goes_before(trains, n, u) {
            set_entry(&mut first, s, n);
        }
    }
    first
}

// Who has a segment keeps it; a free one goes to its first asker.
pub fn granted_all(t: &Tables, trains: &[Train; 24], allocations: &[u8; 62]) -> [u8; 62]
    ensures { result ≡ each (granted t.now trains.now) allocations.now }
{
    let first = first_askers(t, trains);
    each(
        allocations,
        |s, h| if h == 0 {
            entry(&first, s as usize, 0)
        } else {
            h
        },
    )
}

// ---- what the trains count
fn was_granted(before: &[u8; 62], after: &[u8; 62], n: u8, s: u8) -> bool
    ensures { result ≡ was_granted before.now after.now n s }
{
    entry(before, s as usize, 0) == 0 && entry(after, s as usize, 0) == n
}

#[tactic(auto, unfolding(trains::specs::Grant::count_after))]
fn count_after(asks: bool, gets: bool, count: u16) -> u16
    ensures { result ≡ count_after asks gets count }
{
    match (asks, gets) {
        (false, _) => count,
        (true, true) => 0,
        (true, false) => count.saturating_add(1),
    }
}

// The trains after the step, by the allocations before and after it.
#[tactic(auto, unfolding(trains::specs::Grant::calmed))]
pub fn calmed_all(
    t: &Tables,
    before: &[u8; 62],
    after: &[u8; 62],
    trains: &[Train; 24],
) -> [Train; 24]
    ensures { result ≡ each (calmed t.now before.now after.now) trains.now }
{
    each(trains, |n, x| {
        let gets = was_granted(before, after, n, asked_by(t, x));
        x.answered(count_after(x.asks == 1, gets, x.count))
    })
}
