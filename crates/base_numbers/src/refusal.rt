ghost use Rattle.std.specs.Prelude.{◌≡◌, ℕ};
ghost use Rattle.base_numbers.specs.Refusal.{number_of};

// The refusals by name: docs/refusals.txt, which says each in words. What can be refused answers a `Result` with one of these; its number is told at the
// entry points and in texts alone.
#[derive(Clone, Copy, Debug, PartialEq, Eq)]
pub enum Refusal {
    Form = 1,
    OutOfRange = 2,
    NotBelow = 3,
    ShortBuffer = 4,
    UnknownSubject = 5,
    NotHeld = 6,
    UnknownType = 7,
    Unrelated = 8,
    NotOwner = 9,
    NotStrict = 10,
    TypesFull = 11,
    PlacesFull = 12,
    CellsFull = 13,
    NotCallable = 14,
    WrongValues = 15,
    TooWide = 16,
    AnsweredAlready = 17,
    CallsFull = 18,
    LaterLayer = 19,
    UnfitTimes = 22,
}

impl Refusal {
    pub fn number(self) -> usize
        ensures { result ≡ number_of self }
    {
        self as usize
    }
}

// Why something is refused, where its number alone counts (E4): a refusal by name, or any number, as a caller may have one of his own.
pub trait Numbered: Copy {
    ghost numbered: { Self → ℕ };

    fn to_number(self) -> usize
        ensures { result ≡ numbered self };

    fn from_refusal(refusal: Refusal) -> Self
        ensures { numbered result ≡ number_of refusal };
}

impl Numbered for Refusal {
    ghost numbered = { number_of };

    fn to_number(self) -> usize {
        self.number()
    }

    fn from_refusal(refusal: Self) -> Self {
        refusal
    }
}

impl Numbered for usize {
    ghost numbered = { λ n. n };

    fn to_number(self) -> Self {
        self
    }

    fn from_refusal(refusal: Refusal) -> Self {
        refusal.number()
    }
}
