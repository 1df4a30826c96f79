// An area's tables as a file, into a lent buffer. The tables are lent and only read.
#![tactic(auto)]

ghost use Rattle.std.specs.Prelude.{◌≡◌, ◌*◌, ◌≤◌, ◌<◌, length};
ghost use Rattle.file.specs.Bytes.{put_at};
ghost use Rattle.file.specs.Layout.{block_size};
ghost use Rattle.file.specs.Blocks.{block_of};
ghost use Rattle.tables.specs.Tables.{segment_of};
ghost use Rattle.encoding.specs.Encoding.{header_of, segment_record, segment_records, route_records, encoded};

use blocks::{check_of, kind_of};
use octets::{four, put, two};
use tables::{Segment, Tables};

fn header_bytes(t: &Tables) -> [u8; 12]
    ensures { result ≡ header_of t.now }
{
    let [g0, g1] = two(t.gmax);
    let [b0, b1] = two(t.braking);
    let [d0, d1, d2, d3] = four(t.margin);
    [1, t.segments, t.routes, 0, g0, g1, b0, b1, d0, d1, d2, d3]
}

fn segment_bytes(s: Segment) -> [u8; 16]
    ensures { result ≡ segment_record s }
{
    let Segment {
        length,
        limit,
        next1,
        next2,
        previous1,
        previous2,
        flags,
    } = s;
    let [l0, l1, l2, l3] = four(length);
    let [v0, v1] = two(limit);
    [
        l0, l1, l2, l3, v0, v1, next1, next2, previous1, previous2, flags, 0, 0, 0, 0, 0,
    ]
}

// The segment records of a block.
fn segment_rows(t: &Tables, before: u8) -> [u8; 496]
    requires { before ≤ 31 }
    ensures { result ≡ segment_records (segment_of t.now) before }
{
    let mut held = [0; 496];
    for i in 0..31 {
        let row = segment_bytes(t.segment(before + i + 1));
        put(&mut held, 16 * i as u16, &row);
    }
    held
}

// The route records of a block, which the tables keep as the file has them.
fn route_rows(t: &Tables, before: usize) -> &[u8]
    requires { before ≤ 15 }
    ensures { (result.now ≡ route_records t.now.routebytes before) × (length result.now ≡ 480) }
{
    &t.routebytes[32 * before..32 * before + 480]
}

// Puts a block into a buffer at its place. The block is made apart, and its check comes last, over all that it covers.
fn put_block(buffer: &mut [u8], number: u8, held: &[u8])
    requires { (number < 5) × (length held.now ≤ 496) }
    ensures { buffer.new ≡ put_at (block_size * number) (block_of number held.now) buffer.old }
{
    let mut block = [0; 512];
    put(&mut block, 0, held);
    block[496] = kind_of(number);
    block[497] = number;
    [block[510], block[511]] = check_of(&block);
    put(buffer, 512 * number as u16, &block);
}

// Writes the tables as a file into a buffer, as far as that has room.
pub fn write_tables(t: &Tables, buffer: &mut [u8])
    ensures { buffer.new ≡ put_at 0 (encoded t.now) buffer.old }
{
    put_block(buffer, 0, &header_bytes(t));
    put_block(buffer, 1, &segment_rows(t, 0));
    put_block(buffer, 2, &segment_rows(t, 31));
    put_block(buffer, 3, route_rows(t, 0));
    put_block(buffer, 4, route_rows(t, 15));
}
