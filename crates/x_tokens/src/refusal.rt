// The refusals of a translation, with the numbers of specs/Refusals.antt.
ghost use Rattle.std.specs.Prelude.{◌≡◌};
ghost use Rattle.x_tokens.specs.Refusals.{number};

// Why a source is refused.
#[derive(Clone, Copy, PartialEq, Eq)]
pub enum Reason {
    LongSource = 1,
    BrokenToken,
    LargeNumber,
    LongName,
    ManyTokens,
    Ungrammatical,
    DeepProgram,
    NotDeclared,
    DeclaredTwice,
    WrongKind,
    BadLength,
    TooMuch,
    ShortTable,
    ShortCode,
}

// The number that document 01 gives it.
impl From<Reason> for u32 {
    ghost from_gives = { λ reason n. n ≡ number reason };

    fn from(reason: Reason) -> u32 {
        reason as u32
    }
}

// A refused source's reason, and the place in the source that it is about.
#[derive(Clone, Copy, PartialEq, Eq)]
pub struct Refusal {
    pub reason: Reason,
    pub place: u32,
}
