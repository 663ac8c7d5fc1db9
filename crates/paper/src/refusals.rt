// Why words or a request are refused, under the numbers of document 01, in its order of checks ("Refusal numbers, in the order of
// checks"); and the refusal for a reason, or with a number, at a place.
ghost use Rattle.std.specs.Prelude.{◌≡◌, ◌<◌, ◌^◌};
ghost use Rattle.paper.specs.Refusals.{fault_number, fault_of, refusal};
ghost use Rattle.paper.specs.declared.refusals.Fault.{Fault};

use crate::Refusal;

// A reason to refuse. Its number is what C and the lister show: `u8::from` gives it, and `Fault::from` the reason with a number.
#[derive(Clone, Copy, PartialEq, Eq)]
pub enum Fault {
    // a count or the rest of its section is absent
    Absent,
    // a count is outside its range
    CountOutOfRange,
    // a name is not above the one before
    NameNotAbove,
    // a read is V or more
    ReadBeyond,
    // a row breaks its rules, depth apart
    RowBroken,
    // reads are left over
    ReadsLeft,
    // a row is deeper than 64
    TooDeep,
    // a strategy entry is N or more, or not above the one before
    EntryUnfit,
    // words follow section 4
    WordsFollow,
    // a chosen label is no candidate
    NoCandidate,
    // a variable has no chosen label on some branch
    VariableMissed,
    // a variable has two or more on some branch
    VariableTwice,
    // no order exists
    NoOrder,
    // more than 65,535 transitions
    TooMany,
    // number k is not below the count
    NoSuchTransition,
    // transition k has not V chosen labels
    Uneven,
    // the lent slice is too short
    OutTooShort,
    // the lister was given an odd number of bytes
    OddBytes,
    // a number of no reason: nothing here refuses by one, only who asks `refusal_at` for it gets it
    Other(u8),
}

impl From<Fault> for u8 {
    ghost from_gives = { λ f n. n ≡ fault_number f };

    fn from(fault: Fault) -> u8 {
        match fault {
            Fault::Absent => 1,
            Fault::CountOutOfRange => 2,
            Fault::NameNotAbove => 4,
            Fault::ReadBeyond => 5,
            Fault::RowBroken => 6,
            Fault::ReadsLeft => 7,
            Fault::TooDeep => 8,
            Fault::EntryUnfit => 9,
            Fault::WordsFollow => 3,
            Fault::NoCandidate => 10,
            Fault::VariableMissed => 11,
            Fault::VariableTwice => 12,
            Fault::NoOrder => 13,
            Fault::TooMany => 14,
            Fault::NoSuchTransition => 15,
            Fault::Uneven => 18,
            Fault::OutTooShort => 16,
            Fault::OddBytes => 17,
            Fault::Other(number) => number,
        }
    }
}

impl From<u8> for Fault {
    ghost from_gives = { λ n f. f ≡ fault_of n };

    fn from(number: u8) -> Fault {
        match number {
            1 => Fault::Absent,
            2 => Fault::CountOutOfRange,
            4 => Fault::NameNotAbove,
            5 => Fault::ReadBeyond,
            6 => Fault::RowBroken,
            7 => Fault::ReadsLeft,
            8 => Fault::TooDeep,
            9 => Fault::EntryUnfit,
            3 => Fault::WordsFollow,
            10 => Fault::NoCandidate,
            11 => Fault::VariableMissed,
            12 => Fault::VariableTwice,
            13 => Fault::NoOrder,
            14 => Fault::TooMany,
            15 => Fault::NoSuchTransition,
            18 => Fault::Uneven,
            16 => Fault::OutTooShort,
            17 => Fault::OddBytes,
            _ => Fault::Other(number),
        }
    }
}

// The refusal for this reason, at this place. Every refusal is made here. The cast is proved to lose nothing, here and wherever a number
// is cast to a narrower type: `TryFrom` would bring a refusal that cannot happen.
pub fn refusal_for(fault: Fault, place: usize) -> Refusal
    requires { place < 2 ^ 32 }
    ensures { result ≡ refusal fault place }
{
    Refusal {
        fault,
        place: place as u32,
    }
}

// The refusal with this number, at this place: for the reason that has the number, or for none. Any byte may be asked for.
pub fn refusal_at(number: u8, place: usize) -> Refusal
    requires { place < 2 ^ 32 }
    ensures value { result ≡ refusal (fault_of number) place }
    ensures number { fault_number result.fault ≡ number }
{
    refusal_for(Fault::from(number), place)
}
