// The tables that an area file holds. The file is lent and only read. Records and their links and bytes are counted from 1.
#![tactic(auto)]

ghost use Rattle.std.specs.Prelude.{◌≡◌, ◌≤◌, ◌+◌};
ghost use Rattle.lists.specs.Words.{tabulate};
ghost use Rattle.file.specs.Layout.{segment_start};
ghost use Rattle.decoding.specs.Decoding.{segment_block, link_in, decoded};

use blocks::block_of;
use file::File;
use lists::tabulate;
use octets::{byte, four_at, two_at};
use tables::Tables;

// The block of segment record s.
#[tactic(auto, unfolding(crate::specs::Decoding::segment_block))]
pub fn segment_block(file: &File, s: u16) -> &[u8]
    requires { s ≤ 62 }
    ensures { result.now ≡ segment_block file.now s }
{
    block_of(file, 1 + s.saturating_sub(1) as usize / 31)
}

// Where a segment record starts in its block, by how many records stand before it.
pub fn segment_start(before: usize) -> u16
    ensures { result ≡ segment_start (before + 1) }
{
    16 * (before % 31) as u16
}

// The links that stand at a place of each record, two a record: 6 for next, 8 for previous.
#[tactic(auto, unfolding(crate::specs::Decoding::link_in))]
fn links_of(file: &File, place: u8) -> [u8; 124]
    ensures { result ≡ tabulate 124 (link_in place file.now) }
{
    tabulate(|k| {
        let s = (k + 1) / 2;
        let at = segment_start(s as usize - 1) + place as u16 + (k - 1) % 2;
        byte(segment_block(file, s), at as usize)
    })
}

pub fn decode(file: &File) -> Tables
    ensures { result ≡ decoded file.now }
{
    let header = block_of(file, 0);
    Tables {
        segments: byte(header, 1),
        routes: byte(header, 2),
        gmax: two_at(header, 4),
        braking: two_at(header, 6),
        margin: four_at(header, 8),
        lengths: tabulate(|s| four_at(segment_block(file, s), segment_start(s as usize - 1))),
        limits: tabulate(|s| two_at(
            segment_block(file, s),
            segment_start(s as usize - 1) as u32 + 4,
        )),
        next: links_of(file, 6),
        previous: links_of(file, 8),
        flags: tabulate(|s| byte(
            segment_block(file, s),
            segment_start(s as usize - 1) as usize + 10,
        )),
        routebytes: tabulate(|k| {
            let i = k as usize - 1;
            byte(block_of(file, 3 + i / 480), i % 480)
        }),
    }
}
