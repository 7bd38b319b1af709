// Why a call is refused.
ghost use Rattle.std.specs.Prelude.{◌≡◌};
ghost use Rattle.model.specs.Refusals.{reason_number, plain, handed_on, of_cause};

use tokens::token::{Cause, Fault};

// One enum of all reasons, the causes of faults again, 1 to 9, and those of the calls, since every refusal is answered by one number.
#[derive(Clone, Copy, PartialEq, Eq, Debug)]
pub enum Reason {
    TooLong = 1,
    ZeroByte = 2,
    OpenComment = 3,
    LongName = 4,
    Fifth = 5,
    Sixth = 6,
    Seventh = 7,
    Eighth = 8,
    Ninth = 9,
    // k is not 1 to 64
    GramLength = 11,
    // t is not k to 256
    RunLength = 12,
    // a file cannot have the number 0
    NumberZero = 21,
    // a file of this number is held
    NumberHeld = 22,
    // 64 files are held
    TooManyFiles = 23,
    // the work list has fewer entries than a window has values
    WorkShort = 24,
    // the source has more tokens than are free
    TokensFull = 25,
    // the chosen places outnumber the free entries of the index
    IndexFull = 26,
    // no file of this number is there to remove
    RemoveUnheld = 31,
    // no file of this number is there to report
    ReportUnheld = 41,
    // the passages outnumber the entries of the report list
    ReportFull = 42,
    // the held numbers outnumber the entries of the list
    HeldShort = 61,
    // a file could not be read
    FileUnread = 71,
}

// The number that is answered.
impl From<Reason> for u8 {
    ghost from_gives = { λ r n. n ≡ reason_number r };

    fn from(reason: Reason) -> u8 {
        reason as u8
    }
}

// A refusal: its reason, and the place and the depth of the fault, if it is one, else 0. What is answered are three numbers in either case.
#[derive(Clone, Copy, PartialEq, Eq, Debug)]
pub struct Refusal {
    pub reason: Reason,
    pub place: u32,
    pub depth: u8,
}

impl Refusal {
    // A refusal that is no fault.
    pub fn plain(reason: Reason) -> Refusal
        ensures { result ≡ plain reason }
    {
        Refusal {
            reason,
            place: 0,
            depth: 0,
        }
    }
}

// A cause as a reason, under the same number. Case by case, since the way over the number could fail.
impl From<Cause> for Reason {
    ghost from_gives = { λ c r. r ≡ of_cause c };

    fn from(cause: Cause) -> Reason {
        match cause {
            Cause::TooLong => Reason::TooLong,
            Cause::ZeroByte => Reason::ZeroByte,
            Cause::OpenComment => Reason::OpenComment,
            Cause::LongName => Reason::LongName,
            Cause::Fifth => Reason::Fifth,
            Cause::Sixth => Reason::Sixth,
            Cause::Seventh => Reason::Seventh,
            Cause::Eighth => Reason::Eighth,
            Cause::Ninth => Reason::Ninth,
        }
    }
}

// A fault is handed on whole.
impl From<Fault> for Refusal {
    ghost from_gives = { λ f r. r ≡ handed_on f };

    fn from(fault: Fault) -> Refusal {
        Refusal {
            reason: Reason::from(fault.cause),
            place: fault.place,
            depth: fault.depth,
        }
    }
}
