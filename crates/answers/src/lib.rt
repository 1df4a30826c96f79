// What a call answers: done, or a refusal with its number in the papers and the place that it names.
#![tactic(auto)]

ghost use Rattle.std.specs.Prelude.{◌≡◌};
ghost use Rattle.answers.specs.Answers.{answer_of, number_of, place_of};
ghost use Rattle.answers.specs.Refusals.{refusal_number, Numbered};

use std::fmt;

// The refusals of the papers, each with its number there.
#[derive(Clone, Copy, Debug, PartialEq, Eq)]
pub enum Refusal {
    Size = 1,
    Damaged = 2,
    Misfiled = 3,
    Header = 4,
    Margin = 5,
    Segment = 6,
    Joint = 7,
    Order = 8,
    Drop = 9,
    Route = 10,
    Unsound = 11,
    Turn = 12,
    Train = 13,
    AlreadyOn = 14,
    NotOn = 15,
    RouteNumber = 16,
    NoEntry = 17,
    Taken = 18,
    TooFast = 19,
    NoExit = 20,
    Wishes = 21,
    Buffer = 22,
    Length = 23,
}

// A number that no refusal has.
#[derive(Clone, Copy, Debug, PartialEq, Eq)]
pub struct NoRefusal(pub u8);

#[derive(Clone, Copy, Debug, PartialEq, Eq)]
pub enum Answer {
    Done,
    Refused { number: u8, place: u16 },
}

impl Refusal {
    pub fn number(self) -> u8
        ensures { result ≡ refusal_number self }
    {
        self as u8
    }

    // The answer that gives it, at a place; 0 is no place.
    #[tactic(auto, using(crate::proofs::Refusals::refused_answer))]
    pub fn at(self, place: u16) -> Answer
        ensures { result ≡ Answer.Refused (refusal_number self) place }
    {
        answer_of(self.number(), place)
    }
}

impl TryFrom<u8> for Refusal {
    type Error = NoRefusal;

    ghost try_from_gives = { Numbered };

    fn try_from(number: u8) -> Result<Refusal, NoRefusal> {
        match number {
            1 => Ok(Refusal::Size),
            2 => Ok(Refusal::Damaged),
            3 => Ok(Refusal::Misfiled),
            4 => Ok(Refusal::Header),
            5 => Ok(Refusal::Margin),
            6 => Ok(Refusal::Segment),
            7 => Ok(Refusal::Joint),
            8 => Ok(Refusal::Order),
            9 => Ok(Refusal::Drop),
            10 => Ok(Refusal::Route),
            11 => Ok(Refusal::Unsound),
            12 => Ok(Refusal::Turn),
            13 => Ok(Refusal::Train),
            14 => Ok(Refusal::AlreadyOn),
            15 => Ok(Refusal::NotOn),
            16 => Ok(Refusal::RouteNumber),
            17 => Ok(Refusal::NoEntry),
            18 => Ok(Refusal::Taken),
            19 => Ok(Refusal::TooFast),
            20 => Ok(Refusal::NoExit),
            21 => Ok(Refusal::Wishes),
            22 => Ok(Refusal::Buffer),
            23 => Ok(Refusal::Length),
            _ => Err(NoRefusal(number)),
        }
    }
}

// The trade's word.
impl fmt::Display for Refusal {
    fn fmt<W: fmt::Write>(&self, f: &mut fmt::Formatter<W>) -> fmt::Result {
        f.write_str(match self {
            Refusal::Size => "size",
            Refusal::Damaged => "damaged",
            Refusal::Misfiled => "misfiled",
            Refusal::Header => "header",
            Refusal::Margin => "margin",
            Refusal::Segment => "segment",
            Refusal::Joint => "joint",
            Refusal::Order => "order",
            Refusal::Drop => "drop",
            Refusal::Route => "route",
            Refusal::Unsound => "unsound",
            Refusal::Turn => "turn",
            Refusal::Train => "train",
            Refusal::AlreadyOn => "already on",
            Refusal::NotOn => "not on",
            Refusal::RouteNumber => "route number",
            Refusal::NoEntry => "no entry",
            Refusal::Taken => "taken",
            Refusal::TooFast => "too fast",
            Refusal::NoExit => "no exit",
            Refusal::Wishes => "wishes",
            Refusal::Buffer => "buffer",
            Refusal::Length => "length",
        })
    }
}

// The answer of any number, a refusal's or not; 0 is done.
#[tactic(auto, unfolding(crate::specs::Answers::answer_of))]
pub fn answer_of(number: u8, place: u16) -> Answer
    ensures { result ≡ answer_of number place }
{
    if number == 0 {
        Answer::Done
    } else {
        Answer::Refused { number, place }
    }
}

// The number that an answer has in the papers, 0 for done.
pub fn number_of(answer: Answer) -> u8
    ensures { result ≡ number_of answer }
{
    match answer {
        Answer::Done => 0,
        Answer::Refused { number, place } => number,
    }
}

// The place that an answer names, 0 where it names none.
pub fn place_of(answer: Answer) -> u16
    ensures { result ≡ place_of answer }
{
    match answer {
        Answer::Done => 0,
        Answer::Refused { number, place } => place,
    }
}

// The number of an answer; its place goes to `place`.
pub fn tell(answer: Answer, place: &mut u16) -> u8
    ensures { (result ≡ number_of answer) × (place.new ≡ place_of answer) }
{
    *place = place_of(answer);
    number_of(answer)
}
