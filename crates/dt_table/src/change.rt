use dt_base::{Cell, ColName};
use na_vector::Column;
use std::marker::Model;

/// One part of a change. It names a column by its place in the table that is changed, counted
/// from 0.
#[derive(Drop)]
pub enum Part {
    /// This column in another's place.
    Replace {
        col: usize,
        with: Column,
    },
    /// These cells at these rows of a column, one after another: a row that stands twice keeps the
    /// later cell.
    Write {
        col: usize,
        at: Vec<u32>,
        cells: Vec<Cell>,
    },
    /// A new column, behind all others.
    Add {
        name: ColName,
        with: Column,
    },
    /// A column goes.
    Delete {
        col: usize,
    },
}

/// What is made of a table, all at once. Contracts see its parts.
#[derive(Drop)]
pub struct Change {
    pub parts: Vec<Part>,
}

impl Model for Change {
    ghost use Rattle.dt_table.specs.Change.{ChangeSeen, parts_seen};

    ghost Value = { ChangeSeen };

    ghost view = { λ c. record { parts = parts_seen c.parts.items } };
}
