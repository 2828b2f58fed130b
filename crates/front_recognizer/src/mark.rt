ghost use Rattle.std.specs.Prelude.{◌≡◌};
ghost use Rattle.front_recognizer.specs.Marks.{mark_number, mark_of};

// What is open, and so what ends it.
#[derive(Clone, Copy)]
pub enum Mark {
    Nothing,
    Then,
    Braces,
    Target,
    If,
    While,
    Brackets,
    Subscript,
}

// A frame's mark stands in the table as its number.
impl From<Mark> for u32 {
    ghost from_gives = { λ m e. e ≡ mark_number m };

    fn from(m: Mark) -> u32 {
        match m {
            Mark::Nothing => 0,
            Mark::Then => 1,
            Mark::Braces => 2,
            Mark::Target => 3,
            Mark::If => 4,
            Mark::While => 5,
            Mark::Brackets => 6,
            Mark::Subscript => 7,
        }
    }
}

impl From<u32> for Mark {
    ghost from_gives = { λ n e. e ≡ mark_of n };

    fn from(n: u32) -> Mark {
        match n {
            1 => Mark::Then,
            2 => Mark::Braces,
            3 => Mark::Target,
            4 => Mark::If,
            5 => Mark::While,
            6 => Mark::Brackets,
            7 => Mark::Subscript,
            _ => Mark::Nothing,
        }
    }
}
