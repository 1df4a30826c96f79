// The braking distance.
#![tactic(auto)]

ghost use Rattle.std.specs.Prelude.{◌≡◌, ◌≤◌};
ghost use Rattle.braking.specs.Braking.{S};
ghost use Rattle.braking.specs.Distance.{distance_at};

// S(speed) at the rate `braking`: the falling speed is kept, and lowered by the rate each turn, to 0 at the last. After each turn `KeptSum`
// holds (specs/KeptSpeed; document 02, R-5). The kept speed and the rate have 32 bits, as the sum has, so that no turn widens them.
pub fn braking_distance(speed: u16, braking: u16) -> u32
    requires { 1 ≤ braking }
    ensures { result ≡ S braking speed }
{
    let rate = braking as u32;
    let mut falling = speed as u32;
    let mut sum: u32 = 0;
    while 0 < falling {
        sum += falling;
        if rate < falling {
            falling -= rate;
        } else {
            falling = 0;
        }
    }
    sum
}

// S(speed) at a rate of braking; 0 at a rate of 0.
#[tactic(auto, unfolding(crate::specs::Distance::distance_at))]
pub fn distance_at(rate: u16, speed: u16) -> u32
    ensures { result ≡ distance_at rate speed }
{
    if rate == 0 {
        return 0;
    }
    braking_distance(speed, rate)
}
