//! The limits of the language. Each has its refusal in the table of faults.

/// The bytes of a script. More are E16.
pub const MAX_SCRIPT_BYTES: u64 = 1_048_576;

/// The bytes of a CSV file that is read. More are E16.
pub const MAX_FILE_BYTES: u64 = 67_108_864;

/// The rows of a table, and the length of a vector. More are E07.
pub const MAX_ROWS: usize = 16_777_216;

/// The cells of a table, rows times columns. More are E08.
pub const MAX_CELLS: usize = 67_108_864;

/// The columns of a table when it is made. More are E09.
pub const MAX_COLUMNS: usize = 4_096;

/// How many columns a table may gain after it is made. More are E09.
pub const SPARE_COLUMNS: usize = 1_024;

/// How deep brackets nest in a script. Deeper is E21.
pub const MAX_NESTING: usize = 64;

/// The greatest integer, of a literal and of a cell. Its negative is the least. Past it is E22
/// for a literal, and E06 for a result.
pub const MAX_INTEGER: i64 = 9_223_372_036_854_775_807;

/// The machine word that stands for NA in a column of integers. No cell holds this number.
pub const NA_WORD: i64 = i64::MIN;
