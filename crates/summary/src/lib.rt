// The report's numbers by way of one 64-bit word in which bit s - 1 is set exactly when segment s is allocated.
#![tactic(auto)]

ghost use Rattle.std.specs.Prelude.{◌≡◌};
ghost use Rattle.summary.specs.Summary.{summary_of};
ghost use Rattle.summary.specs.Word.{word_of};

#[derive(Clone, Copy, Debug, Default, PartialEq, Eq)]
pub struct Summary {
    pub allocated: u8,
    pub free: u8,
}

// The highest segment's bit goes in first.
fn word_of(allocations: &[u8; 62]) -> u64
    ensures { result ≡ word_of allocations.now }
{
    allocations
        .iter()
        .rev()
        .fold(0, |word, h| word << 1 | u64::from(*h != 0))
}

// The allocated segments counted as ones of the word, and the least free segment of n by the zeros below the lowest one of its
// complement.
pub fn summary_of(allocations: &[u8; 62], n: u8) -> Summary
    ensures { result ≡ summary_of allocations.now n }
{
    let word = word_of(allocations);
    let taken = (!word).trailing_zeros() as u8;
    Summary {
        allocated: word.count_ones() as u8,
        free: if taken < n { taken + 1 } else { 0 },
    }
}
