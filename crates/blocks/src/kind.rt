// Document 01's kinds of block, and their numbers in a row.
ghost use Rattle.std.specs.Prelude.{◌≡◌};
ghost use Rattle.blocks.specs.Kind.{number_of, IsKindOf};

// UT is an unknown block met by a text link, UD one met by a data link; DT stands for DT, DV, RD and RV.
#[derive(Clone, Copy, Debug, PartialEq, Eq)]
pub enum Kind {
    ID,
    HD,
    DG,
    CG,
    CN,
    SI,
    TX,
    MD,
    DT,
    SD,
    DL,
    UT,
    UD,
}

// A number that is no kind's.
#[derive(Clone, Copy, Debug, PartialEq, Eq)]
pub struct UnknownKind(pub u64);

#[tactic(auto, unfolding(mdf4::specs::Kinds::shape))]
impl From<Kind> for u64 {
    ghost from_gives = { λ k n. n ≡ number_of k };

    fn from(kind: Kind) -> u64 {
        match kind {
            Kind::ID => 1,
            Kind::HD => 2,
            Kind::DG => 3,
            Kind::CG => 4,
            Kind::CN => 5,
            Kind::SI => 6,
            Kind::TX => 7,
            Kind::MD => 8,
            Kind::DT => 9,
            Kind::SD => 10,
            Kind::DL => 11,
            Kind::UT => 12,
            Kind::UD => 13,
        }
    }
}

#[tactic(auto, unfolding(mdf4::specs::Kinds::shape))]
impl TryFrom<u64> for Kind {
    type Error = UnknownKind;

    ghost try_from_gives = { IsKindOf };

    fn try_from(number: u64) -> Result<Kind, UnknownKind> {
        Ok(match number {
            1 => Kind::ID,
            2 => Kind::HD,
            3 => Kind::DG,
            4 => Kind::CG,
            5 => Kind::CN,
            6 => Kind::SI,
            7 => Kind::TX,
            8 => Kind::MD,
            9 => Kind::DT,
            10 => Kind::SD,
            11 => Kind::DL,
            12 => Kind::UT,
            13 => Kind::UD,
            _ => return Err(UnknownKind(number)),
        })
    }
}
