// Rules 4 to 6 of the tables: of the header's numbers and of one segment record.
#![tactic(auto)]

ghost use Rattle.std.specs.Prelude.{◌≡◌, ◌≤◌, ◌&&◌, leb};
ghost use Rattle.tables.specs.Bounds.{bounds};
ghost use Rattle.tables.specs.Rules.{header_ok, margin_ok, links_ok, used_ok, row_ok, segment_ok};

use tables::{FASTEST, LONGEST, MOST_ROUTES, MOST_SEGMENTS, Segment, Tables};

// ---- rules 4 and 5
fn is_within(n: u32, most: u32) -> bool
    ensures { result ≡ (leb 1 n && leb n most) }
{
    (1..=most).contains(&n)
}

#[tactic(auto, unfolding(tables::specs::Rules::header_in))]
pub fn header_ok(t: &Tables) -> bool
    ensures { result ≡ header_ok bounds t.now }
{
    is_within(u32::from(t.segments), u32::from(MOST_SEGMENTS))
        && is_within(u32::from(t.routes), u32::from(MOST_ROUTES))
        && is_within(u32::from(t.gmax), u32::from(FASTEST))
        && is_within(u32::from(t.braking), u32::from(t.gmax))
        && is_within(t.margin, LONGEST)
}

pub fn margin_ok(t: &Tables) -> bool
    requires { 1 ≤ t.now.braking }
    ensures { result ≡ margin_ok t.now }
{
    braking::braking_distance(t.gmax, t.braking) <= t.margin
}

// ---- rule 6
#[tactic(auto, unfolding(tables::specs::Rules::links_ok))]
fn links_ok(n: u8, first: u8, second: u8) -> bool
    ensures { result ≡ links_ok n first second }
{
    (first <= n) & (second <= n) & ((second == 0) | ((first != 0) & (first != second)))
}

// Of tables handed in nothing is known, so the sum is of 64 bits.
#[tactic(auto, unfolding(tables::specs::Rules::used_ok))]
fn used_ok(n: u8, gmax: u16, margin: u32, s: Segment) -> bool
    ensures { result ≡ used_ok bounds n gmax margin s }
{
    let shortest = u64::from(margin) + u64::from(gmax);
    (shortest < u64::from(s.length))
        & (s.length <= LONGEST)
        & (1..=gmax).contains(&s.limit)
        & links_ok(n, s.next1, s.next2)
        & links_ok(n, s.previous1, s.previous2)
        & (s.flags <= 3)
}

// What is kept of segment record k, whatever the number and the record; a record above the last segment is all zero.
#[tactic(auto, unfolding(tables::specs::Rules::row_ok, tables::specs::Rules::unused_ok))]
pub fn row_ok(n: u8, gmax: u16, margin: u32, k: u8, s: Segment) -> bool
    ensures { result ≡ row_ok bounds n gmax margin k s }
{
    if k <= n {
        used_ok(n, gmax, margin, s)
    } else {
        s == Segment::default()
    }
}

// What the tables keep of segment record k.
pub fn segment_ok(t: &Tables, k: u8) -> bool
    ensures { result ≡ segment_ok bounds t.now k }
{
    row_ok(t.segments, t.gmax, t.margin, k, t.segment(k))
}
