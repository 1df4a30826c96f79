// The blocks of an area file as parts of it, and what each block carries at its end.
#![tactic(auto)]

ghost use Rattle.std.specs.Prelude.{◌≡◌, ◌<◌, [], ◌∷◌, length, take};
ghost use Rattle.lists.specs.Words.{found};
ghost use Rattle.file.specs.Layout.{block_size, in_tail, kind_of};
ghost use Rattle.file.specs.Blocks.{block, sums, intact, filed, first_damaged, first_misfiled};

use file::File;
use lists::first_failing;
use octets::{are_zeros, byte};

// A block of the file, as a part of it.
pub fn block_of(file: &File, k: usize) -> &[u8]
    requires { k < 5 }
    ensures { (result.now ≡ block file.now k) × (length result.now ≡ block_size) }
{
    &file[512 * k..512 * k + 512]
}

// The check of a block. The sums are kept whole and reduced once at the end: of fewer than 512 bytes neither can pass 32 bits.
pub fn check_of(block: &[u8]) -> [u8; 2]
    requires { length block.now ≡ block_size }
    ensures { result ≡ (sums (take in_tail.check block.now)).first ∷ (sums (take in_tail.check block.now)).second ∷ [] }
{
    let mut first: u32 = 0;
    let mut second: u32 = 0;
    for &byte in &block[..510] {
        first += byte as u32;
        second += first;
    }
    [(first % 255) as u8, (second % 255) as u8]
}

#[tactic(auto, unfolding(file::specs::Blocks::intact))]
fn is_intact(block: &[u8]) -> bool
    requires { length block.now ≡ block_size }
    ensures { result ≡ intact block.now }
{
    check_of(block) == [byte(block, 510), byte(block, 511)]
}

// 1 header, 2 and 2 segments, 3 and 3 routes.
#[tactic(auto, unfolding(file::specs::Layout::kind_of))]
pub fn kind_of(k: u8) -> u8
    ensures { result ≡ kind_of k }
{
    match k {
        0 => 1,
        1 | 2 => 2,
        _ => 3,
    }
}

#[tactic(auto, unfolding(file::specs::Blocks::filed))]
fn is_filed(block: &[u8], k: u8) -> bool
    ensures { result ≡ filed block.now k }
{
    byte(block, 496) == kind_of(k)
        && byte(block, 497) == k
        && are_zeros(block, 498, 509)
        && (k < 3 || are_zeros(block, 480, 495))
}

// The first block whose check differs, counted from 1.
#[tactic(auto, unfolding(file::specs::Blocks::first_damaged))]
pub fn first_damaged(file: &File) -> Option<u8>
    ensures { result ≡ found (first_damaged file.now) }
{
    first_failing(5, |n| is_intact(block_of(file, n as usize - 1)))
}

// The first block with a wrong kind, number or zero, counted from 1.
#[tactic(auto, unfolding(file::specs::Blocks::first_misfiled))]
pub fn first_misfiled(file: &File) -> Option<u8>
    ensures { result ≡ found (first_misfiled file.now) }
{
    first_failing(5, |n| is_filed(block_of(file, n as usize - 1), n - 1))
}
