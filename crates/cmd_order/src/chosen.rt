use row_order::SortCol;
use std::alloc::{AllocError, Global};
use std::collections::HashSet;
use std::marker::Model;

/// Columns of a table in order, none of them twice, with a set of their places to look one up.
/// Contracts see the list.
#[derive(Drop)]
pub struct Chosen {
    list: Vec<SortCol>,
    places: HashSet<usize>,
}

impl Model for Chosen {
    ghost use Rattle.std.specs.Prelude.{◌≡◌, ℕ, List, nat_eq};
    ghost use Rattle.std.specs.List.{IsDistinct, list_any};
    ghost use Rattle.cmd_order.specs.Columns.{places_of};
    ghost use Rattle.row_order.specs.declared.ordering.SortCol.{SortCol};

    ghost Value = { List SortCol };

    ghost view = { λ c. c.list.items };

    ghost invariant = { λ c. ((q : ℕ)
        → list_any (nat_eq q) c.places.keys ≡ list_any (nat_eq q) (places_of c.list.items))
        × IsDistinct nat_eq (places_of c.list.items) };
}

impl Chosen {
    ghost use Rattle.std.specs.Prelude.{◌≡◌, ◌++◌, ◌∷◌, [], IfOk, if◌then◌else◌, nat_eq, not};
    ghost use Rattle.std.specs.List.{IsDistinct, list_any};
    ghost use Rattle.cmd_order.specs.Columns.{places_of};

    /// No column.
    pub fn new(alloc: Global) -> Chosen
        ensures { result ≡ [] }
    {
        Chosen {
            list: Vec::new(alloc),
            places: HashSet::new(alloc),
        }
    }

    /// Adds a column behind the others, unless it is one of them; whether it was none. After want
    /// of memory it may be one of them or not. It looks the column up in one step.
    pub fn add(&mut self, column: SortCol) -> Result<bool, AllocError>
        ensures added { IfOk result
            (λ added. added ≡ not (list_any (nat_eq column.col) (places_of self.old))) }
        ensures after { IfOk result
            (λ added. self.new ≡ (if added then self.old ++ column ∷ [] else self.old)) }
    {
        self.list.reserve(1)?;
        if !self.places.insert(column.col)? {
            return Ok(false);
        }
        self.list.push_reserved(column);
        Ok(true)
    }

    /// The columns.
    pub fn into_list(self) -> Vec<SortCol>
        ensures list { result.items ≡ self }
        ensures distinct { IsDistinct nat_eq (places_of self) }
    {
        let Chosen { list, places: _ } = self;
        list
    }
}
