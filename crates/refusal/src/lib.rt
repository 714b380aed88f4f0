// A refusal: the rule that is broken, and where. It is made here and nowhere else.
#![tactic(auto)]

ghost use Rattle.std.specs.Prelude.{◌≡◌};
ghost use Rattle.refusal.specs.Refusal.{in_row, refuse, in_entry};
ghost use Rattle.refusal.specs.Told.{number, told};

// What each refusal speaks of, with its number.
#[derive(Clone, Copy, Debug, PartialEq, Eq)]
pub enum Rule {
    Processors = 1,
    Depth = 2,
    Count = 3,
    Period = 4,
    Deadline = 5,
    Execution = 6,
    Frame = 7,
    Lists = 8,
    Bytes = 9,
    Form = 10,
    Entries = 11,
    Kind = 12,
    Place = 13,
    Sum = 14,
    Body = 15,
    Twice = 16,
    NoTable = 17,
    NoRow = 18,
    Output = 19,
}

impl From<Rule> for u8 {
    ghost from_gives = { λ k n. n ≡ number k };

    fn from(rule: Rule) -> u8 {
        rule as u8
    }
}

// The rule that is broken, and the entry and the row that the refusal names, 0 where none applies.
#[derive(Clone, Copy, Debug, PartialEq, Eq)]
pub struct Refusal {
    pub rule: Rule,
    pub entry: u8,
    pub row: u8,
}

impl Refusal {
    // A refusal that names a row.
    pub fn in_row(rule: Rule, row: u8) -> Refusal
        ensures { told result ≡ in_row (number rule) row }
    {
        Refusal {
            rule,
            entry: 0,
            row,
        }
    }

    // The same refusal, of an entry.
    pub fn in_entry(self, entry: u8) -> Refusal
        ensures { told result ≡ in_entry entry (told self) }
    {
        let mut named = self;
        named.entry = entry;
        named
    }
}

// A refusal that names neither.
impl From<Rule> for Refusal {
    ghost from_gives = { λ k r. told r ≡ refuse (number k) };

    fn from(rule: Rule) -> Refusal {
        Refusal::in_row(rule, 0)
    }
}
