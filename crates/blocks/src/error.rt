// What refuses a call: the Rust's variants where it has them, and ours for its panics, for conversions, for limits and for document
// 02's orders. The definition `numbers` of specs/Errors.antt gives the papers' number, place, a and b of each.
ghost use Rattle.std.specs.Prelude.{◌≡◌};
ghost use Rattle.mdf4.specs.Act as spec;
ghost use Rattle.blocks.specs.Errors.{numbers, part_number, refusal_of};

// What is wrong with a version's text: it is no UTF-8, or one of its two parts is no number.
#[derive(Clone, Copy, Debug, PartialEq, Eq)]
pub enum VersionPart {
    Utf8,
    Major,
    Minor,
}

// Document 01's numbers of them.
impl From<VersionPart> for u64 {
    ghost from_gives = { λ p n. n ≡ part_number p };

    fn from(part: VersionPart) -> u64 {
        match part {
            VersionPart::Utf8 => 1,
            VersionPart::Major => 2,
            VersionPart::Minor => 3,
        }
    }
}

#[derive(Clone, Copy, Debug, PartialEq, Eq)]
pub enum MdfError {
    TooShortBuffer {
        place: u64,
        expected: u64,
        actual: u64,
    },
    FileIdentifierError,
    // the number of a VersionPart
    InvalidVersionString {
        part: u64,
    },
    FileVersioningError {
        number: u64,
    },
    BlockIDError {
        place: u64,
        expected: u64,
        actual: u64,
    },
    BlockSerializationError {
        place: u64,
        links_nr: u64,
        block_len: u64,
    },
    // the Rust panics: a sum past its width; the place of a version is 8, of any other sum its first addend
    SumOverflow {
        place: u64,
        a: u64,
        b: u64,
    },
    Conversion {
        place: u64,
        channel: u64,
    },
    VisitedFull {
        place: u64,
        lent: u64,
    },
    BlocksFull {
        place: u64,
        lent: u64,
    },
    LinksFull {
        place: u64,
        lent: u64,
    },
    TableTooShort {
        lent: u64,
        needed: u64,
    },
    OutputTooShort {
        lent: u64,
        needed: u64,
    },
    TooDeep {
        place: u64,
        limit: u64,
    },
    // the identification's two words of unfinalized flags
    Unfinalized {
        standard: u64,
        custom: u64,
    },
}

// Document 01's four numbers of a refusal.
#[derive(Clone, Copy, Debug, PartialEq, Eq)]
pub struct Refusal {
    pub number: u64,
    pub place: u64,
    pub a: u64,
    pub b: u64,
}

// A refusal's four numbers in document 01's order, so that each of the fifteen below is one line.
fn four(number: u64, place: u64, a: u64, b: u64) -> Refusal
    ensures { refusal_of result ≡ spec.refusal number place a b }
{
    Refusal {
        number,
        place,
        a,
        b,
    }
}

impl MdfError {
    // No From: by its name the call says what is read of the error, as the definition does.
    pub fn numbers(self) -> Refusal
        ensures { refusal_of result ≡ numbers self }
    {
        match self {
            MdfError::TooShortBuffer {
                place,
                expected,
                actual,
            } => four(1, place, expected, actual),
            MdfError::FileIdentifierError => four(2, 0, 0, 0),
            MdfError::InvalidVersionString { part } => four(3, 8, part, 0),
            MdfError::FileVersioningError { number } => four(4, 8, number, 0),
            MdfError::BlockIDError {
                place,
                expected,
                actual,
            } => four(5, place, expected, actual),
            MdfError::BlockSerializationError {
                place,
                links_nr,
                block_len,
            } => four(6, place, links_nr, block_len),
            MdfError::SumOverflow { place, a, b } => four(7, place, a, b),
            MdfError::Conversion { place, channel } => four(9, place, channel, 0),
            MdfError::VisitedFull { place, lent } => four(10, place, lent, 0),
            MdfError::BlocksFull { place, lent } => four(11, place, lent, 0),
            MdfError::LinksFull { place, lent } => four(12, place, lent, 0),
            MdfError::TableTooShort { lent, needed } => four(13, 0, lent, needed),
            MdfError::OutputTooShort { lent, needed } => four(14, 0, lent, needed),
            MdfError::TooDeep { place, limit } => four(15, place, limit, 0),
            MdfError::Unfinalized { standard, custom } => four(16, 60, standard, custom),
        }
    }
}
