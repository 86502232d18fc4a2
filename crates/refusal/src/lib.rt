// Why a call is refused: the refusals of documents 01 and 02, with their numbers and places.
#![tactic(auto)]

ghost use Rattle.std.specs.Prelude.{◌≡◌, ◌-◌, ◌≤◌, ◌∷◌, replicate};
ghost use Rattle.refusal.specs.Refusal.{refusal_of};

use std::fmt;

// In the order of their numbers, with the place of those that have one.
#[derive(Clone, Copy, Debug, PartialEq, Eq)]
pub enum Refusal {
    Long,
    Methods,
    Method(usize),
    Confirm(usize),
    Buffers,
    Batch,
    Length,
    Check(usize),
    Header,
    Key(usize),
    NoRoom(usize),
    Line(usize),
    NotRising(usize),
    TooShort,
    Index,
    Counts,
    NotOne,
    Sequence(usize),
    Edit(usize),
    NotSolid(usize),
}

impl Refusal {
    pub fn number(self) -> u64
        ensures { result ≡ (refusal_of self).number }
    {
        match self {
            Refusal::Long => 1,
            Refusal::Methods => 2,
            Refusal::Method(_) => 3,
            Refusal::Confirm(_) => 4,
            Refusal::Buffers => 5,
            Refusal::Batch => 6,
            Refusal::Length => 7,
            Refusal::Check(_) => 8,
            Refusal::Header => 9,
            Refusal::Key(_) => 10,
            Refusal::NoRoom(_) => 11,
            Refusal::Line(_) => 12,
            Refusal::NotRising(_) => 13,
            Refusal::TooShort => 14,
            Refusal::Index => 15,
            Refusal::Counts => 16,
            Refusal::NotOne => 17,
            Refusal::Sequence(_) => 18,
            Refusal::Edit(_) => 19,
            Refusal::NotSolid(_) => 20,
        }
    }

    // The entry, block, word, line, edit or end that is refused; 0 where there is none.
    pub fn place(self) -> u64
        ensures { result ≡ (refusal_of self).place }
    {
        match self {
            Refusal::Method(place)
            | Refusal::Confirm(place)
            | Refusal::Check(place)
            | Refusal::Key(place)
            | Refusal::NoRoom(place)
            | Refusal::Line(place)
            | Refusal::NotRising(place)
            | Refusal::Sequence(place)
            | Refusal::Edit(place)
            | Refusal::NotSolid(place) => place as u64,
            _ => 0,
        }
    }

    // Number and place at the start of what a host is told; what does not apply to a refusal is 0.
    pub fn numbers<const N: usize>(self) -> [u64; N]
        requires { 2 ≤ N }
        ensures { result ≡ (refusal_of self).number ∷ (refusal_of self).place ∷ replicate (N - 2) 0 }
    {
        let mut numbers = [0; N];
        numbers[0] = self.number();
        numbers[1] = self.place();
        numbers
    }
}

impl fmt::Display for Refusal {
    fn fmt<W: fmt::Write>(&self, f: &mut fmt::Formatter<W>) -> fmt::Result {
        write!(f, "refused {} place {}", self.number(), self.place())
    }
}
