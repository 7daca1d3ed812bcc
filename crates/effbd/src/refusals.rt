// The refusals of documents 01 and 02 by name, as refusals.txt at the repository's root lists them, and what a call that is turned away returns.
ghost use Rattle.std.specs.Prelude.{◌≡◌};
ghost use Rattle.effbd.specs.Answers.{number};

// Why a call is turned away. `number` in specs/Answers.antt states the papers' number of each.
#[derive(Clone, Copy, Debug, PartialEq, Eq)]
pub enum Reason {
    CutShort = 1,
    KindNotDue = 2,
    LengthWrong = 3,
    HeadValueOff = 4,
    FieldOff = 5,
    BytesAfterLast = 6,
    NestingBroken = 7,
    LoopExitMisplaced = 8,
    TooManyOpen = 9,
    AreaShort = 10,
    StateOff = 20,
    CodeOff = 21,
    NotStanding = 22,
    ItemShort = 23,
    TicksLacking = 24,
    SumTooLarge = 25,
    WaitHeld = 26,
    CountFull = 27,
    NoTelegram = 30,
    OtherStation = 31,
    NumberPast = 32,
    NumberAhead = 33,
    LogOff = 40,
    NotFunction = 41,
    MoveRefused = 42,
    TriggerOff = 43,
    KillingBranchEmpty = 44,
    LoopSpendsNoTime = 45,
    NumberNotNext = 46,
    StationDiffers = 47,
    BoxExitMisplaced = 48,
    OutletsUnmatched = 49,
    ScenarioFallsThrough = 50,
    // No refusal of the papers, and no exported function's: a table that is lent to a reader has not the length of a table.
    TableOff = 65535,
}

impl Reason {
    pub fn number(self) -> u16
        ensures { result ≡ number self }
    {
        self as u16
    }
}

// Turned away: why, and the value returned with it.
#[derive(Clone, Copy, Debug, PartialEq, Eq)]
pub struct Refusal {
    pub reason: Reason,
    pub value: u32,
}
