// The limits of a task file, its form, and the bytes of its parts. specs/Limits.antt has the same numbers for the contracts.

// "number of entries n, 1 to 64".
pub const ENTRIES: usize = 64;

// "At most 65,535 bytes".
pub const BYTES: usize = 65535;

// "Bytes 2 and 3: form, 1".
pub const FORM: u16 = 1;

// The file's first bytes: its number of entries and its form.
pub const HEAD: usize = 4;

// "n entries of 12 bytes".
pub const ENTRY: usize = 12;
