use dt_base::Warns;

/// The rows that a bracket's i finds.
#[derive(Drop)]
pub struct Found {
    /// Where each stands in the table, or none for a row of NA; without i none: all rows as they
    /// stand.
    pub positions: Option<Vec<Option<u32>>>,
    /// Whether i names a row that is not there.
    pub past: bool,
    /// Whether i gave a logical vector, so that the rows stand in the order that they had.
    pub logical: bool,
    /// The warnings of i.
    pub warns: Warns,
}
