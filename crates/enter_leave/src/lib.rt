// What enter and leave ask of a segment, and what is freed at leave.
#![tactic(auto)]

ghost use Rattle.std.specs.Prelude.{◌≡◌, not, ◌&&◌, [], ◌∷◌, ltb};
ghost use Rattle.lists.specs.Words.{at, each};
ghost use Rattle.lists.specs.Tests.{◌⇒◌, first_of};
ghost use Rattle.answers.specs.Refusals.{told};
ghost use Rattle.trains.specs.Train.{own_of};
ghost use Rattle.trains.specs.EnterLeave.{is_entry, is_exit, is_last, freed_by};

use answers::Refusal;
use lists::{each, entry};
use tables::Tables;
use trains::Train;

// The two flags of a segment.
fn is_entry(t: &Tables, s: u8) -> bool
    ensures { result ≡ is_entry t.now s }
{
    t.flags_of(s) % 2 == 1
}

fn is_exit(t: &Tables, s: u8) -> bool
    ensures { result ≡ is_exit t.now s }
{
    t.flags_of(s) / 2 == 1
}

// The tests of a route's first segment.
pub fn check_first_segment(
    t: &Tables,
    allocations: &[u8; 62],
    first: u8,
    speed: u16,
) -> Result<(), Refusal>
    ensures { told result ≡ first_of (not (is_entry t.now first) ⇒ 17 ∷ ltb 0 (at allocations.now first) ⇒ 18 ∷ ltb (at t.now.limits first) speed ⇒ 19 ∷ []) }
{
    if !is_entry(t, first) {
        return Err(Refusal::NoEntry);
    }
    if 0 < entry(allocations, first as usize, 0) {
        return Err(Refusal::Taken);
    }
    if t.limit(first) < speed {
        return Err(Refusal::TooFast);
    }
    Ok(())
}

// On its route's last segment, which has the exit flag.
pub fn at_exit(t: &Tables, x: Train) -> bool
    ensures { result ≡ (is_last t.now x && is_exit t.now (own_of t.now x)) }
{
    x.place == t.count(x.route) && is_exit(t, standing::own_of(t, x))
}

// All that is allocated to train n is freed.
pub fn freed_all(allocations: &[u8; 62], n: u8) -> [u8; 62]
    ensures { result ≡ each (freed_by n) allocations.now }
{
    each(allocations, |_, h| if h == n { 0 } else { h })
}
