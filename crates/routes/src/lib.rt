// Rule 10 over the route records of an area.
#![tactic(auto)]

ghost use Rattle.std.specs.Prelude.{◌≡◌, ◌≤◌, ◌&&◌, leb};
ghost use Rattle.lists.specs.Words.{every, first_failing, found};
ghost use Rattle.tables.specs.Bounds.{most_routes, longest_route};
ghost use Rattle.tables.specs.Tables.{count_of, segment_at};
ghost use Rattle.tables.specs.Rules.{rest_in, used_route_ok, unused_route_ok, route_ok};

use lists::{every, first_failing};
use tables::{LONGEST_ROUTE, MOST_ROUTES, Tables, links_to};

fn is_within(n: u8, most: u8) -> bool
    ensures { result ≡ (leb 1 n && leb n most) }
{
    (1..=most).contains(&n)
}

// A route record of the tables, by its number.
#[derive(Clone, Copy)]
struct Record<'a> {
    t: &'a Tables,
    r: u8,
    ghost numbered: { (1 ≤ r) × (r ≤ most_routes) },
}

impl<'a> Record<'a> {
    // The byte at a place, read straight: the count at 0, and then the segments.
    fn byte(&self, p: u8) -> u8
        requires { p ≤ longest_route }
        ensures { result ≡ segment_at self.now.t.now.routebytes self.now.r p }
    {
        self.t.routebytes[32 * (self.r as usize) - 32 + (p as usize)]
    }

    // The places after the count are zero.
    fn is_blank_after(&self, count: u8) -> bool
        requires { count ≡ count_of self.now.t.now.routebytes self.now.r }
        ensures { result ≡ every longest_route (rest_in self.now.t.now.routebytes self.now.r) }
    {
        every(
            LONGEST_ROUTE,
            |p| -> bool
                requires { p ≤ longest_route }
            { p <= count || self.byte(p) == 0 },
        )
    }

    // The route is walked up to its count, each place with the segment before it in hand.
    fn used_ok(&self) -> bool
        ensures { result ≡ used_route_ok self.now.t.now.next self.now.t.now.routebytes self.now.t.now.segments self.now.r }
    {
        let t = self.t;
        let count = t.count(self.r);
        if !is_within(count, LONGEST_ROUTE) {
            return false;
        }
        if !self.is_blank_after(count) {
            return false;
        }
        let mut before = self.byte(1);
        if !is_within(before, t.segments) {
            return false;
        }
        for p in 1..count {
            let segment = self.byte(p + 1);
            if !is_within(segment, t.segments) {
                return false;
            }
            if !links_to(&t.next, before, segment) {
                return false;
            }
            before = segment;
        }
        true
    }

    // No early return: the 32 bytes are compared at one stroke.
    fn unused_ok(&self) -> bool
        ensures { result ≡ unused_route_ok self.now.t.now.routebytes self.now.r }
    {
        let mut blank = true;
        for p in 0..=LONGEST_ROUTE {
            blank = blank & (self.byte(p) == 0);
        }
        blank
    }

    #[tactic(auto, unfolding(tables::specs::Rules::route_in))]
    fn is_ok(&self) -> bool
        ensures { result ≡ route_ok self.now.t.now self.now.r }
    {
        if self.r <= self.t.routes {
            self.used_ok()
        } else {
            self.unused_ok()
        }
    }
}

// The first of all route records that breaks the rule.
pub fn first_bad_route(t: &Tables) -> Option<u8>
    ensures { result ≡ found (first_failing most_routes (route_ok t.now)) }
{
    first_failing(
        MOST_ROUTES,
        |r| -> bool
            requires { (1 ≤ r) × (r ≤ most_routes) }
        { Record { t, r }.is_ok() },
    )
}
