// What the kind number of an entry says.
#![tactic(auto)]

ghost use Rattle.std.specs.Prelude.{◌≡◌};
ghost use Rattle.file_kinds.specs.Kinds.{kind_of};

// The kind number of a table.
pub const TABLE: u16 = 1;

// What an entry that may stand in a file is.
#[derive(Clone, Copy, Debug, PartialEq, Eq)]
pub enum Kind {
    Table,
    Note,
}

// The kind that a number says; None where it is refused.
#[tactic(auto, unfolding(crate::specs::Kinds::kind_of, basics::specs::When::when))]
pub fn kind_of(k: u16) -> Option<Kind>
    ensures { result ≡ kind_of k }
{
    match k {
        TABLE => Some(Kind::Table),
        128..=255 => Some(Kind::Note),
        _ => None,
    }
}
