// What load finds wrong with a file.
#![tactic(auto)]

ghost use Rattle.std.specs.Prelude.{◌≡◌};

use answers::Refusal;

// The first rule that is broken, and its place: the least block, record, segment or route that breaks it; 0 for a rule that names none.
#[derive(Clone, Copy, Debug, PartialEq, Eq)]
pub struct Fault {
    pub refusal: Refusal,
    pub place: u16,
}

impl From<Refusal> for Fault {
    ghost from_gives = { λ refusal fault. fault ≡ record { refusal = refusal; place = 0 } };

    fn from(refusal: Refusal) -> Fault {
        Fault { refusal, place: 0 }
    }
}
