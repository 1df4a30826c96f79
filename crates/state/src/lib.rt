// The running state of an area as bytes, into a lent buffer and from one. The layout is in docs/FORMATS.md.
#![tactic(auto)]

ghost use Rattle.std.specs.Prelude.{◌≡◌, ◌≤◌, ℕ, List};
ghost use Rattle.std.specs.List.{flat_map};
ghost use Rattle.trains.specs.Train.{most_trains};
ghost use Rattle.state.specs.State.{train_bytes, train_rows, head_bytes, state_into, tables_of, train_of, record_of, ReadsBack};

use area::Area;
use decoding::decode;
use file::File;
use lists::{each, tabulate};
use octets::{byte, four, four_at, put, two, two_at};
use tables::Tables;
use trains::Train;

fn train_bytes(x: Train) -> [u8; 32]
    ensures { result ≡ train_bytes x }
{
    let [p0, p1, p2, p3] = four(x.position);
    let [v0, v1] = two(x.speed);
    let [n0, n1] = two(x.count);
    let [l0, l1] = two(x.length);
    let mut row = [0; 32];
    row[..14].copy_from_slice(&[
        x.route, x.place, x.asks, 0, p0, p1, p2, p3, v0, v1, n0, n1, l0, l1,
    ]);
    row
}

fn head_bytes(due: u8, allocations: &[u8; 62]) -> [u8; 64]
    ensures { result ≡ head_bytes due allocations.now }
{
    let mut head = [0; 64];
    head[0] = due;
    head[1..63].copy_from_slice(allocations);
    head
}

fn train_rows(trains: &[Train; 24]) -> [[u8; 32]; 24]
    ensures { flat_map (λ (row : List ℕ). row) result ≡ train_rows trains.now }
{
    each(
        trains,
        |_, x| -> [u8; 32]
            ensures { result ≡ train_bytes x }
        { train_bytes(x) },
    )
}

// Writes the state into a buffer, as far as that has room.
pub fn write_state(area: &Area, buffer: &mut [u8])
    ensures buffer_after { buffer.new ≡ state_into area.now buffer.old }
    ensures reads_back { ReadsBack area.now buffer.old buffer.new }
{
    put(buffer, 0, &head_bytes(area.due, &area.allocations));
    put(buffer, 64, train_rows(&area.trains).as_flattened());
}

// ---- any record at all, from bytes
fn tables_of(file: &[u8]) -> Tables
    ensures { result ≡ tables_of file.now }
{
    match <&File>::try_from(file) {
        Ok(file) => decode(file),
        Err(_) => Tables::blank(),
    }
}

#[tactic(auto, unfolding(crate::specs::State::train_of))]
fn train_of(state: &[u8], t: u16) -> Train
    requires { (1 ≤ t) × (t ≤ most_trains) }
    ensures { result ≡ train_of state.now t }
{
    let start = 64 + 32 * (t - 1);
    let at = usize::from(start);
    Train {
        route: byte(state, at),
        place: byte(state, at + 1),
        position: four_at(state, start + 4),
        speed: two_at(state, u32::from(start) + 8),
        asks: byte(state, at + 2),
        count: two_at(state, u32::from(start) + 10),
        length: two_at(state, u32::from(start) + 12),
    }
}

#[tactic(auto, unfolding(crate::specs::State::record_of))]
pub fn record_of(file: &[u8], state: &[u8]) -> Area
    ensures { result ≡ record_of file.now state.now }
{
    Area {
        tables: tables_of(file),
        allocations: tabulate(|s| byte(state, usize::from(s))),
        trains: tabulate(|t| train_of(state, t)),
        due: byte(state, 0),
    }
}
