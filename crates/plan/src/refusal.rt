// Why a call is refused.
//   Refusal      document 01's reasons, each with its number
ghost use Rattle.std.specs.Prelude.{◌≡◌};
ghost use Rattle.plan.specs.Numbers.{number_of};

#[derive(Clone, Copy, Debug, PartialEq, Eq)]
pub enum Refusal {
    BadPlan = 1,
    BadLength = 2,
    BadElement = 3,
    BadUser = 4,
    SetUnusable = 5,
    NotInSet = 6,
    BadRecord = 7,
    BadPlace = 8,
    PlanOrder = 11,
    OtherPhase = 12,
    Held = 13,
    NoSurvivor = 14,
    TooFew = 15,
    Unexplained = 16,
    OldRound = 17,
    OutOfTurn = 18,
    OtherSet = 19,
    BytesRunOut = 31,
    FigureBeyond = 32,
    OtherRound = 33,
}

impl From<Refusal> for u32 {
    ghost from_gives = { λ r n. n ≡ number_of r };

    fn from(refusal: Refusal) -> u32 {
        refusal as u32
    }
}
