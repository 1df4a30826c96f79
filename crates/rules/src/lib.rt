// Rules 7 to 9 over the segments of an area, and rules 4 to 10 together.
#![tactic(auto)]

ghost use Rattle.std.specs.Prelude.{◌≡◌, ℕ, Bool, ◌&&◌, ◌||◌, eqb};
ghost use Rattle.lists.specs.Words.{first_failing, found};
ghost use Rattle.tables.specs.Tables.{first_link, second_link};
ghost use Rattle.tables.specs.Rules.{matched, joint_ok, order_ok, drop_ok, meets};

use lists::{every, first_failing};
use records::{header_ok, margin_ok, segment_ok};
use routes::first_bad_route;
use tables::{MOST_SEGMENTS, Tables, first_link, links_to, second_link};

// ---- rules 7 to 9 of a segment
// Each of the two links of segment s is none or passes the test.
fn links_pass<F: Fn(u8) -> bool>(links: &[u8; 124], s: u8, test: F) -> bool
    requires { (link : ℕ) → F.pre test link }
    ensures { (p : ℕ → Bool) → ((link : ℕ) (b : Bool) → F.post test link b → b ≡ p link) → result ≡ ((eqb (first_link links.now s) 0 || p (first_link links.now s)) && (eqb (second_link links.now s) 0 || p (second_link links.now s))) }
{
    let first = first_link(links, s);
    let second = second_link(links, s);
    (first == 0 || test(first)) && (second == 0 || test(second))
}

// The links of s one way have s among the links of their segments the other way.
fn is_joined(links: &[u8; 124], back: &[u8; 124], s: u8) -> bool
    ensures { result ≡ (matched back.now (first_link links.now s) s && matched back.now (second_link links.now s) s) }
{
    links_pass(links, s, |link| links_to(back, link, s))
}

#[tactic(auto, unfolding(tables::specs::Rules::joint_in))]
fn joint_ok(t: &Tables, s: u8) -> bool
    ensures { result ≡ joint_ok t.now s }
{
    is_joined(&t.next, &t.previous, s) && is_joined(&t.previous, &t.next, s)
}

fn order_ok(t: &Tables, s: u8) -> bool
    ensures { result ≡ order_ok t.now s }
{
    links_pass(&t.next, s, |link| s < link)
}

// The speed lost from one limit to the next is at most one cycle's braking.
fn drop_ok(t: &Tables, s: u8) -> bool
    ensures { result ≡ drop_ok t.now s }
{
    let limit = u32::from(t.limit(s));
    links_pass(
        &t.next,
        s,
        |link| limit <= u32::from(t.limit(link)) + u32::from(t.braking),
    )
}

// ---- rules 7 to 9 of all segments: the first that breaks one
pub fn first_unjoined(t: &Tables) -> Option<u8>
    ensures { result ≡ found (first_failing t.now.segments (joint_ok t.now)) }
{
    first_failing(t.segments, |s| joint_ok(t, s))
}

pub fn first_unordered(t: &Tables) -> Option<u8>
    ensures { result ≡ found (first_failing t.now.segments (order_ok t.now)) }
{
    first_failing(t.segments, |s| order_ok(t, s))
}

pub fn first_dropping(t: &Tables) -> Option<u8>
    ensures { result ≡ found (first_failing t.now.segments (drop_ok t.now)) }
{
    first_failing(t.segments, |s| drop_ok(t, s))
}

// ---- rules 4 to 10 together
// The margin comes after the header, which says that the braking rate is not 0.
pub fn meet(t: &Tables) -> bool
    ensures { result ≡ meets t.now }
{
    if !header_ok(t) {
        return false;
    }
    margin_ok(t)
        & every(MOST_SEGMENTS, |k| segment_ok(t, k))
        & first_unjoined(t).is_none()
        & first_unordered(t).is_none()
        & first_dropping(t).is_none()
        & first_bad_route(t).is_none()
}
