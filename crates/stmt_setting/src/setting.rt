ghost use Rattle.std.specs.Prelude.{◌≡◌, [], length};
ghost use Rattle.expr_scope.specs.Scope.{env_of, IsScope};
ghost use Rattle.expr_model.specs.Surroundings as model;
ghost use Rattle.session_model.specs.Found.{vars_of};
ghost use Rattle.table_heap.specs.State.{state_of};

use dt_table::Table;
use expr_eval::{Scope, Vars};
use func_table::Options;
use na_vector::{Column, Frame};
use table_heap::{Heap, Look};

/// What a statement meets: the script's names, and the options of the session.
#[derive(Clone, Copy)]
pub struct Setting<'a> {
    pub heap: &'a Heap,
    pub options: Options,
}

impl Vars for Setting<'_> {
    ghost bound = { λ s. vars_of (state_of s.heap.now) };

    fn vector(&self, name: &str) -> Option<&Column> {
        match self.heap.look(name) {
            Look::Vector(column) => Some(column),
            Look::Absent | Look::Table(_) => None,
        }
    }

    fn table(&self, name: &str) -> Option<&Table> {
        match self.heap.look(name) {
            Look::Table(id) => Some(self.heap.table(id)),
            Look::Absent | Look::Vector(_) => None,
        }
    }
}

/// The surroundings of an expression outside brackets: the script's names alone.
pub fn outside<'s>(empty: &'s Frame, setting: &'s Setting<'s>) -> Scope<'s, Setting<'s>>
    requires columns { empty.now.columns ≡ [] }
    requires rows { empty.now.rows ≡ 0 }
    ensures env { env_of (λ s. vars_of (state_of s.heap.now)) result
        ≡ model.outside (vars_of (state_of setting.now.heap.now)) }
    ensures scope { IsScope result }
{
    Scope {
        names: &[],
        wide: empty,
        single_names: &[],
        single: empty,
        positions: &[],
        count: 0,
        group: 0,
        inside: false,
        sd: &[],
        vars: setting,
    }
}
