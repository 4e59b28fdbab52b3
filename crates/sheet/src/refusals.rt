// Why a call turns back: document 01's reasons, and the place that each reports.
ghost use Rattle.std.specs.Prelude.{◌≡◌};
ghost use Rattle.sheet.specs.Reasons.{number_of, turned_back_for};

use tree::Answer;

// Document 01, "Reasons a call turns back", under its numbers.
#[derive(Clone, Copy, Debug, PartialEq, Eq)]
pub enum Reason {
    SizeOutside = 1,
    LengthWrong = 2,
    ScratchShort = 3,
    TermAbove = 4,
    ValueOutside = 5,
    LabelHigh = 6,
    OrderWrong = 7,
    ValueFalls = 8,
    CutsWrong = 9,
    ColumnHigh = 10,
    LeafHigh = 11,
    ThresholdEndless = 12,
    HeadWrong = 20,
    SheetLarge = 21,
    RowWrong = 22,
    BytesLeft = 23,
}

impl Reason {
    pub fn number(self) -> u32
        ensures { result ≡ number_of self }
    {
        self as u32
    }

    // The refusal of a whole call, which is reported at place 0.
    pub fn whole(self) -> Refusal
        ensures { result ≡ record { reason = self; place = 0 } }
    {
        self.at(0)
    }

    pub fn at(self, place: usize) -> Refusal
        ensures { result ≡ record { reason = self; place = place } }
    {
        Refusal {
            reason: self,
            place,
        }
    }
}

// A reason, and the place that it reports.
#[derive(Clone, Copy, Debug, PartialEq, Eq)]
pub struct Refusal {
    pub reason: Reason,
    pub place: usize,
}

impl From<Refusal> for Answer {
    ghost from_gives = { λ refusal answer. answer ≡ turned_back_for refusal };

    fn from(refusal: Refusal) -> Answer {
        Answer::TurnedBack {
            number: refusal.reason.number(),
            place: refusal.place,
        }
    }
}
