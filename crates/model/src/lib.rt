// What every crate shares by name: the limits, the refusals, and how a record is read.
// Its definitions are in specs/, its laws in proofs/; its only function numbers the refusals.
#![tactic(auto)]

ghost use Rattle.std.specs.Prelude.{◌≡◌};
ghost use Rattle.model.specs.calls.Refusals.{number};

// The limits of specs/keys/Key, records/Record, buckets/Bucket, buckets/Index, translation/PairRecord and tables/Tables,
// for use in code.
pub const MAX_LEN: usize = 64;

pub const RECORD_SIZE: usize = 66;

pub const NO_EDGE_MARK: u16 = 65534;

pub const MAX_MARK: u16 = 65535;

pub const ENTRY_SIZE: usize = 70;

pub const MAX_ENTRIES: usize = 512;

pub const PLACE_SIZE: usize = 2;

pub const PAIR_SIZE: usize = 133;

pub const MIN_PIVOTS: usize = 2;

pub const MAX_PIVOTS: usize = 64;

// Why a call refuses. `number` in specs/calls/Refusals.antt gives each its number.
#[derive(Clone, Copy, Debug, PartialEq, Eq)]
pub enum Refusal {
    Shape,
    Malformed,
    Unsorted,
    EmptyPrefix,
    OutOfRange,
    NoSuchSlot,
    NotPrefix,
    TooLong,
    NotBelow,
    NoRoom,
    AlreadyPivot,
    TooManyPivots,
    NotMeeting,
    EntriesUnsorted,
    WrongIndex,
}

// The paper's number of a refusal.
impl From<Refusal> for u32 {
    ghost from_gives = { λ r n. n ≡ number r };

    fn from(r: Refusal) -> u32 {
        match r {
            Refusal::Shape => 1,
            Refusal::Malformed => 2,
            Refusal::Unsorted => 3,
            Refusal::EmptyPrefix => 4,
            Refusal::OutOfRange => 5,
            Refusal::NoSuchSlot => 6,
            Refusal::NotPrefix => 7,
            Refusal::TooLong => 8,
            Refusal::NotBelow => 9,
            Refusal::NoRoom => 10,
            Refusal::AlreadyPivot => 11,
            Refusal::TooManyPivots => 12,
            Refusal::NotMeeting => 13,
            Refusal::EntriesUnsorted => 14,
            Refusal::WrongIndex => 15,
        }
    }
}

// What the edge of a slot is: a prefix of so many bytes, or absent. No Option, since document 02 (W10) gives edges a third
// state, whose arm the compiler then asks for wherever an edge is matched.
#[derive(Clone, Copy, Debug, PartialEq, Eq)]
pub enum EdgeKind {
    Prefix(usize),
    Absent,
}

// The four ways in which a record is read; a key comes with its length.
#[derive(Clone, Copy, Debug, PartialEq, Eq)]
pub enum Reading {
    Key(usize),
    Malformed,
    NoEdge,
    Max,
}
