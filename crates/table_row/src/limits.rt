// The limits of a table. specs/Limits.antt has the same numbers for the contracts.

// "m is 1 to 16, x is 1 to 8".
pub const PROCESSORS: usize = 16;

pub const DEPTHS: usize = 8;

// "room for 32 rows": as many as a set can have.
pub const ROWS: usize = sets::WIDTH;

// The longest frame, and so the longest period.
pub const SLOTS: usize = 4096;
