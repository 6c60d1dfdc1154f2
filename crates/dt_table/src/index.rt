use std::marker::Model;

/// An index: one column or more, counted from 0, and all rows, counted from 0, in the order of
/// these columns. Contracts see the two lists.
#[derive(Drop)]
pub struct Index {
    pub cols: Vec<usize>,
    pub order: Vec<u32>,
}

impl Model for Index {
    ghost use Rattle.dt_table.specs.Table.{IndexSeen};

    ghost Value = { IndexSeen };

    ghost view = { λ x. record { cols = x.cols.items; order = x.order.items } };
}
