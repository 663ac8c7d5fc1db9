// The limits of document 01 ("The formula table"), under the names of specs/Limits.antt.

// V: variables.
pub const MOST_VARIABLES: usize = 1024;

// R: reads.
pub const MOST_READS: usize = 8192;

// N: rows, and so labels.
pub const MOST_ROWS: usize = 4096;

// S: entries of the strategy section.
pub const MOST_CHOSEN: usize = 4096;

// Levels of nested rows, stars included.
pub const MOST_DEPTH: u16 = 64;

// Transitions of an accepted table.
pub const MOST_TRANSITIONS: u64 = 65535;

// Bytes that the lister reads.
pub const MOST_BYTES: usize = 65536;

// How many words the arrays over chosen candidates have: one more than there can be candidates, since each takes two rows and two
// or more of them stand below a join.
pub const SLOTS: usize = 2048;
