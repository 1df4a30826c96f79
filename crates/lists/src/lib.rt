// Entries of a list by their number, and what is found or made number by number. Numbers are counted from 1. A function that is handed
// another one says of every definition that this one computes what comes of it.
#![tactic(auto)]

ghost use Rattle.std.specs.Prelude.{◌≡◌, ◌<◌, ◌≤◌, ◌+◌, ℕ, Bool, eqb, get_or, if◌then◌else◌};
ghost use Rattle.lists.specs.Words.{nth, each, tabulate, every, first_failing, found};

// The entry of a lent list by its number; `none` where there is none. Total, so that no caller shows a bound.
pub fn entry<T: Copy>(l: &[T], n: usize, none: T) -> T
    ensures { result ≡ nth none l.now n }
{
    if n == 0 {
        return none;
    }
    l.get(n - 1).copied().unwrap_or(none)
}

// Makes x entry n of a lent array, which stays as it is where it has no entry n; and the array with that entry.
pub fn set_entry<T: Copy, const N: usize>(xs: &mut [T; N], n: usize, x: T)
    ensures { xs.new ≡ each (λ k y. if eqb k n then x else y) xs.old }
{
    if (1..=N).contains(&n) {
        xs[n - 1] = x;
    }
}

pub fn with_entry<T: Copy, const N: usize>(xs: &[T; N], n: usize, x: T) -> [T; N]
    ensures { result ≡ each (λ k y. if eqb k n then x else y) xs.now }
{
    let mut new = *xs;
    set_entry(&mut new, n, x);
    new
}

// What f makes of each entry and its number.
pub fn each<T: Copy, U: Copy + Default, const N: usize, F: Fn(u8, T) -> U>(
    xs: &[T; N],
    f: F,
) -> [U; N]
    requires few { N < 256 }
    requires callable { (i : ℕ) (d : T) → i < N → F.pre f (i + 1) (get_or xs.now i d) }
    ensures { (g : ℕ → T → U) → ((n : ℕ) (x : T) (y : U) → F.post f n x y → y ≡ g n x) → result ≡ each g xs.now }
{
    let mut new = [U::default(); N];
    for i in 0..N {
        new[i] = f(i as u8 + 1, xs[i]);
    }
    new
}

// What f makes of each number.
pub fn tabulate<U: Copy + Default, const N: usize, F: Fn(u16) -> U>(f: F) -> [U; N]
    requires few { N < 65536 }
    requires callable { (i : ℕ) → i < N → F.pre f (i + 1) }
    ensures { (g : ℕ → U) → ((n : ℕ) (y : U) → F.post f n y → y ≡ g n) → result ≡ tabulate N g }
{
    let mut new = [U::default(); N];
    for i in 0..N {
        new[i] = f(i as u16 + 1);
    }
    new
}

// The first of the numbers 1 to n for which the test fails.
#[tactic(auto, using(crate::proofs::Loops::none_after, crate::proofs::Loops::none_last))]
pub fn first_failing<F: Fn(u8) -> bool>(n: u8, ok: F) -> Option<u8>
    requires { (k : ℕ) → 1 ≤ k → k ≤ n → F.pre ok k }
    ensures { (p : ℕ → Bool) → ((k : ℕ) (b : Bool) → F.post ok k b → b ≡ p k) → result ≡ found (first_failing n p) }
{
    for k in 1..=n {
        if !ok(k) {
            return Some(k);
        }
    }
    None
}

// The test holds for each of the numbers 1 to n.
pub fn every<F: Fn(u8) -> bool>(n: u8, ok: F) -> bool
    requires { (k : ℕ) → 1 ≤ k → k ≤ n → F.pre ok k }
    ensures { (p : ℕ → Bool) → ((k : ℕ) (b : Bool) → F.post ok k b → b ≡ p k) → result ≡ every n p }
{
    first_failing(n, ok).is_none()
}
