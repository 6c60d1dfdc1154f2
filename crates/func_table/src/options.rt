/// The two options of a session.
#[derive(Clone, Copy)]
pub struct Options {
    /// `datatable.auto.index`: a query may leave an index.
    pub auto_index: bool,
    /// `datatable.use.index`: a query may use one.
    pub use_index: bool,
}
