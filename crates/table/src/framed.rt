// An accepted table, and its frame.
ghost use Rattle.table.specs.Meaning.{Accepted};

use crate::Table;

// The frame is the least common multiple of the periods. Only the check's own answer makes one, so who is handed it need not test.
#[derive(Clone, Copy)]
pub struct Framed {
    pub table: Table,
    pub frame: u32,
    pub ghost accepted: { Accepted table frame },
}
