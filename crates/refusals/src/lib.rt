// The refusals of the fixed list, each with its number.
#![tactic(auto)]

ghost use Rattle.std.specs.Prelude.{◌≡◌};
ghost use Rattle.refusals.specs.Refusals.{number_of, number_of_any, refusal_of_number};

// Why a book, a query, an answer or a sheet is refused, in the order of the numbers. Number 8 is no longer given.
#[derive(Clone, Copy, Debug, PartialEq, Eq)]
pub enum Refusal {
    TooManyBytes,
    KindNotAllowed,
    CutShort,
    TooManyOfItsKind,
    OutOfRange,
    DeclaredAlready,
    NotDeclared,
    CyclicMaximalObject,
    NoItem,
    OperatorNotAllowed,
    NoConnection,
    SpaceTooSmall,
    LastSerialNumber,
    SheetNotPrintable,
    NoSuchSheet,
    WrongComparisonTable,
    RemovedWithOnlyDeclared,
}

impl Refusal {
    // The number of a refusal.
    pub fn number(self) -> u8
        ensures { result ≡ number_of self }
    {
        match self {
            Refusal::TooManyBytes => 1,
            Refusal::KindNotAllowed => 2,
            Refusal::CutShort => 3,
            Refusal::TooManyOfItsKind => 4,
            Refusal::OutOfRange => 5,
            Refusal::DeclaredAlready => 6,
            Refusal::NotDeclared => 7,
            Refusal::CyclicMaximalObject => 9,
            Refusal::NoItem => 10,
            Refusal::OperatorNotAllowed => 11,
            Refusal::NoConnection => 12,
            Refusal::SpaceTooSmall => 13,
            Refusal::LastSerialNumber => 14,
            Refusal::SheetNotPrintable => 18,
            Refusal::NoSuchSheet => 19,
            Refusal::WrongComparisonTable => 20,
            Refusal::RemovedWithOnlyDeclared => 21,
        }
    }

    // The refusal with a number, if one has it.
    pub fn from_number(number: u32) -> Option<Refusal>
        ensures { result ≡ refusal_of_number number }
    {
        match number {
            1 => Some(Refusal::TooManyBytes),
            2 => Some(Refusal::KindNotAllowed),
            3 => Some(Refusal::CutShort),
            4 => Some(Refusal::TooManyOfItsKind),
            5 => Some(Refusal::OutOfRange),
            6 => Some(Refusal::DeclaredAlready),
            7 => Some(Refusal::NotDeclared),
            9 => Some(Refusal::CyclicMaximalObject),
            10 => Some(Refusal::NoItem),
            11 => Some(Refusal::OperatorNotAllowed),
            12 => Some(Refusal::NoConnection),
            13 => Some(Refusal::SpaceTooSmall),
            14 => Some(Refusal::LastSerialNumber),
            18 => Some(Refusal::SheetNotPrintable),
            19 => Some(Refusal::NoSuchSheet),
            20 => Some(Refusal::WrongComparisonTable),
            21 => Some(Refusal::RemovedWithOnlyDeclared),
            _ => None,
        }
    }
}

// The number of a refusal, or 0 where there is none.
pub fn number(refusal: Option<Refusal>) -> u8
    ensures { result ≡ number_of_any refusal }
{
    match refusal {
        Some(given) => given.number(),
        None => 0,
    }
}
