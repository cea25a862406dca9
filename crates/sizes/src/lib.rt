// Document 01, 'Engine sizes: at most 32 originals, 8 equality columns, 16 rows', and what follows from them.
#![tactic(auto)]

pub const ORIGINALS: usize = 32;

pub const EQUALITIES: usize = 8;

pub const ROWS: usize = 16;

// A slack for each row beside the originals, and a column of E for it beside the equalities.
pub const VARIABLES: usize = ORIGINALS + ROWS;

pub const COLUMNS: usize = EQUALITIES + ROWS;

// A problem of at most so many variables and columns is small: its work memory is too, since clearing the large would take longer than its solve.
pub const FEW: usize = 8;

// The entries of a matrix of work memory, which has a row for each original and a column for each of them (SQUARE) or for each column of E (TALL);
// and of either in a small problem.
pub const SQUARE: usize = ORIGINALS * ORIGINALS;

pub const TALL: usize = ORIGINALS * COLUMNS;

pub const SMALL: usize = FEW * FEW;
