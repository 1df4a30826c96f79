// The tables of an area by value, and what they say of a segment and of a route. Segments, routes and places are counted from 1; what the
// tables do not have is zero. Tables are lent, so that none is copied.
#![tactic(auto)]

ghost use Rattle.std.specs.Prelude.{◌≡◌};
ghost use Rattle.lists.specs.Words.{at};
ghost use Rattle.tables.specs.Tables.{first_link, second_link, links_to, segment_of, count_of, segment_at, blank_tables};

use lists::entry;

// The bounds of documents 01, "The area file", and 02, R-3.
pub const MOST_SEGMENTS: u8 = 62;

pub const MOST_ROUTES: u8 = 30;

pub const LONGEST_ROUTE: u8 = 31;

pub const FASTEST: u16 = 2000;

pub const LONGEST: u32 = 4000000;

// N, R, `gmax`, `b` and `d` of document 01; then a slot for each segment, two for its next and two for its previous links,
// and the route records as the file has them, 32 bytes each: the count and then the segment numbers.
#[repr(C)]
#[derive(Clone, Copy)]
pub struct Tables {
    pub segments: u8,
    pub routes: u8,
    pub gmax: u16,
    pub braking: u16,
    pub margin: u32,
    pub lengths: [u32; 62],
    pub limits: [u16; 62],
    pub next: [u8; 124],
    pub previous: [u8; 124],
    pub flags: [u8; 62],
    pub routebytes: [u8; 960],
}

// What the tables keep of one segment record.
#[derive(Clone, Copy, Debug, Default, PartialEq, Eq)]
pub struct Segment {
    pub length: u32,
    pub limit: u16,
    pub next1: u8,
    pub next2: u8,
    pub previous1: u8,
    pub previous2: u8,
    pub flags: u8,
}

// ---- the links of a segment, of next or of previous ones
pub fn first_link(links: &[u8; 124], s: u8) -> u8
    ensures { result ≡ first_link links.now s }
{
    entry(links, (2 * s as usize).saturating_sub(1), 0)
}

pub fn second_link(links: &[u8; 124], s: u8) -> u8
    ensures { result ≡ second_link links.now s }
{
    entry(links, 2 * s as usize, 0)
}

#[tactic(auto, unfolding(crate::specs::Tables::links_to))]
pub fn links_to(links: &[u8; 124], s: u8, n: u8) -> bool
    ensures { result ≡ links_to links.now s n }
{
    first_link(links, s) == n || second_link(links, s) == n
}

impl Tables {
    // All zero.
    #[tactic(auto, unfolding(crate::specs::Tables::blank_tables))]
    pub fn blank() -> Tables
        ensures { result ≡ blank_tables }
    {
        Tables {
            segments: 0,
            routes: 0,
            gmax: 0,
            braking: 0,
            margin: 0,
            lengths: [0; 62],
            limits: [0; 62],
            next: [0; 124],
            previous: [0; 124],
            flags: [0; 62],
            routebytes: [0; 960],
        }
    }

    // ---- a segment
    pub fn length(&self, s: u8) -> u32
        ensures { result ≡ at self.now.lengths s }
    {
        entry(&self.lengths, s as usize, 0)
    }

    pub fn limit(&self, s: u8) -> u16
        ensures { result ≡ at self.now.limits s }
    {
        entry(&self.limits, s as usize, 0)
    }

    pub fn flags_of(&self, s: u8) -> u8
        ensures { result ≡ at self.now.flags s }
    {
        entry(&self.flags, s as usize, 0)
    }

    pub fn segment(&self, s: u8) -> Segment
        ensures { result ≡ segment_of self.now s }
    {
        Segment {
            length: self.length(s),
            limit: self.limit(s),
            next1: first_link(&self.next, s),
            next2: second_link(&self.next, s),
            previous1: first_link(&self.previous, s),
            previous2: second_link(&self.previous, s),
            flags: self.flags_of(s),
        }
    }

    // ---- a route: how many segments it has, and the one at a place of it
    #[tactic(auto, unfolding(crate::specs::Tables::count_of))]
    pub fn count(&self, r: u8) -> u8
        ensures { result ≡ count_of self.now.routebytes r }
    {
        entry(&self.routebytes, (32 * r as usize).saturating_sub(31), 0)
    }

    #[tactic(auto, unfolding(crate::specs::Tables::segment_at))]
    pub fn segment_at(&self, r: u8, p: u8) -> u8
        ensures { result ≡ segment_at self.now.routebytes r p }
    {
        entry(
            &self.routebytes,
            (32 * r as usize).saturating_sub(31) + p as usize,
            0,
        )
    }
}
