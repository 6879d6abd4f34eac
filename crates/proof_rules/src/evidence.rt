ghost use Rattle.std.specs.Prelude.{◌≡◌};
ghost use Rattle.proof_rules.specs.Kinds.{kind_of};

// What an accepted proof file is.
#[derive(Clone, Copy, PartialEq, Eq, Debug)]
pub enum Evidence {
    // rows that no run leaves, none of them barred
    Set,
    // the steps of a run that ends in a barred state
    Witness,
}

// A byte that is the kind of no proof file.
#[derive(Clone, Copy, PartialEq, Eq, Debug)]
pub struct UnknownKind;

// What a proof file is for, by the byte of its kind.
impl TryFrom<u8> for Evidence {
    type Error = UnknownKind;

    ghost try_from_gives = { λ b r. r ≡ kind_of b };

    fn try_from(kind: u8) -> Result<Evidence, UnknownKind> {
        match kind {
            1 => Ok(Evidence::Set),
            2 => Ok(Evidence::Witness),
            _ => Err(UnknownKind),
        }
    }
}
