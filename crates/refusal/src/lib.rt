// Why a call is refused: each reason by its name, with the number that the answer to a caller in C has.
#![tactic(auto)]

ghost use Rattle.std.specs.Prelude.{◌≡◌};
ghost use Rattle.refusal.specs.Numbers.{number_of};

// The reasons, in the order of their numbers.
#[derive(Clone, Copy, Debug, PartialEq, Eq)]
pub enum Refusal {
    // A table of no letter or of over 24, or with a byte above 1.
    BadTable = 1,
    // A buffer shorter than required.
    NoRoom,
    // An expression that is too long or too deep.
    TooLong,
    // An expression that is torn.
    Torn,
    // A letter that the table has not.
    AbsentLetter,
    // Kinds that do not fit.
    WrongKind,
    // More than 48 pairs of terms.
    ManyPairs,
    // More than 6 vector letters or 2 scalar letters in a term.
    ManyLetters,
    // A coefficient beyond ±2147483647.
    LargeCoefficient,
    // More than 48 terms.
    ManyTerms,
    // Not in the one written shape.
    WrongShape,
    // Not an assignment of the table's letters.
    WrongAssignment,
    // A last form that is not the one reached.
    OtherForm,
    // A log that has 64 steps.
    FullLog,
}

impl Refusal {
    // The number of a reason.
    pub fn number(self) -> u8
        ensures { result ≡ number_of self }
    {
        self as u8
    }
}
