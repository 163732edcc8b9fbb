// What every public call answers: a value, or one of the refusals of documents 01 and 02. specs/Outcome.antt gives
// each case its number and the values that it carries.
#![tactic(auto)]

ghost use Rattle.std.specs.Prelude.{◌≡◌};
ghost use Rattle.answers.specs.Outcome.{outside_of, number_in, place_in, number_of, place_of, answer_of};

// The numbers by which a run ends: a question was answered with stop, or a height was not finite.
pub const STOPPED: u32 = 21;

pub const RUN_OFF: u32 = 22;

// A refusal. Those that name a place carry it: the first bad cell, or the first bad position of a list.
#[derive(Clone, Copy, Debug, PartialEq, Eq)]
pub enum Refusal {
    Side,
    ReducedSide,
    Length,
    Setting,
    Height(usize),
    Receiver(usize),
    List(usize),
    Stream,
    Cells,
    Stopped,
    RunOff,
    Row,
    Spacings,
    NoCell,
    NoBase,
    Metres(usize),
    Tiles,
}

// What a whole run answers, with the completed incisions and passes and the questions asked.
#[derive(Clone, Copy, Debug, PartialEq, Eq)]
pub struct RunAnswer {
    pub answer: Result<(), Refusal>,
    pub incisions: u32,
    pub passes: u32,
    pub questions: u32,
}

// Refusal 4's test: whether x lies outside lo to hi. A NaN lies in no range.
pub fn outside(x: f32, lo: f32, hi: f32) -> bool
    ensures { result ≡ outside_of x lo hi }
{
    !(lo <= x && x <= hi)
}

// The number of a refusal.
impl From<Refusal> for u32 {
    ghost from_gives = { λ r n. n ≡ number_of r };

    fn from(r: Refusal) -> u32 {
        match r {
            Refusal::Side => 1,
            Refusal::ReducedSide => 2,
            Refusal::Length => 3,
            Refusal::Setting => 4,
            Refusal::Height(_) => 5,
            Refusal::Receiver(_) => 6,
            Refusal::List(_) => 7,
            Refusal::Stream => 8,
            Refusal::Cells => 9,
            Refusal::Stopped => STOPPED,
            Refusal::RunOff => RUN_OFF,
            Refusal::Row => 31,
            Refusal::Spacings => 32,
            Refusal::NoCell => 33,
            Refusal::NoBase => 34,
            Refusal::Metres(_) => 35,
            Refusal::Tiles => 36,
        }
    }
}

impl Refusal {
    // The place that a refusal carries, 0 where it carries none.
    pub fn place(self) -> usize
        ensures { result ≡ place_of self }
    {
        match self {
            Refusal::Height(cell) | Refusal::Receiver(cell) | Refusal::Metres(cell) => cell,
            Refusal::List(position) => position,
            _ => 0,
        }
    }
}

// The number of an answer, 0 if it is no refusal.
pub fn answer_number(a: Result<(), Refusal>) -> u32
    ensures { result ≡ number_in (answer_of a) }
{
    match a {
        Ok(()) => 0,
        Err(r) => u32::from(r),
    }
}

// The place that an answer carries, 0 if it carries none.
pub fn answer_place(a: Result<(), Refusal>) -> usize
    ensures { result ≡ place_in (answer_of a) }
{
    match a {
        Ok(()) => 0,
        Err(r) => r.place(),
    }
}
