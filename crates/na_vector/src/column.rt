ghost use Rattle.std.specs.Prelude.{◌≡◌, ◌+◌, ◌<◌, ◌≤◌, ◌++◌, ◌∷◌, [], length, map, All, IfOk};
ghost use Rattle.std.specs.Prelude.{OnOk, OnErr, slice_set};
ghost use Rattle.dt_base.specs.Cell.{seen, IsOfType};
ghost use Rattle.dt_base.specs.declared.limits.TheConstants.{MAX_ROWS};
ghost use Rattle.dt_model.specs.Vector.{IsVector, IsWithin, cell_at, gathered};
ghost use Rattle.na_vector.specs.Words.{int_cell, lgl_cell, text_cell, text_count, IsLglWord};
ghost use Rattle.na_vector.specs.Words.{int_vector, lgl_vector, text_vector};

use crate::gather::{copied_texts, gather_ints, gather_lgls, gather_texts};
use crate::words::{int_ref, int_word, lgl_ref, lgl_word, text_ref, text_word};
use dt_base::{Cell, CellRef, ColType, Steps, Text};
use std::alloc::{AllocError, Global};
use std::marker::Model;
use std::sync::ledger::Ledger;

/// A list of cells of one type, at most 16,777,216. Contracts see its vector, and a number, spare:
/// so many places are there for more cells, and for texts that are put, without more memory.
#[derive(Drop)]
pub struct Column {
    store: Store,
}

#[derive(Drop)]
enum Store {
    Lgl(Vec<u8>),
    Int(Vec<i64>),
    Chr(Vec<Option<Text>>),
}

impl Model for Column {
    ghost use Rattle.na_vector.specs.Column.{Seen};

    ghost Value = { Seen };

    ghost use Rattle.na_vector.specs.Stored.{seen_of, IsStored};

    ghost view = { λ c. seen_of c.store };

    ghost invariant = { λ c. IsStored c.store };
}

impl Column {
    /// A column of this type without cells. It takes no memory.
    pub fn new(alloc: Global, kind: ColType) -> Column
        ensures kind { result.vector.kind ≡ kind }
        ensures empty { result.vector.cells ≡ [] }
    {
        match kind {
            ColType::Lgl => Column {
                store: Store::Lgl(Vec::new(alloc)),
            },
            ColType::Int => Column {
                store: Store::Int(Vec::new(alloc)),
            },
            ColType::Chr => Column {
                store: Store::Chr(Vec::new(alloc)),
            },
        }
    }

    /// The column of integers with these words, in order; -2^63 is NA. It takes no memory.
    pub fn from_ints(words: Vec<i64>) -> Column
        requires { length words.items ≤ MAX_ROWS }
        ensures { result.vector ≡ int_vector words.items }
    {
        Column {
            store: Store::Int(words),
        }
    }

    /// The column of logicals with these words, in order: 0 is FALSE, 1 is TRUE and 2 is NA. It
    /// takes no memory.
    pub fn from_lgls(words: Vec<u8>) -> Column
        requires words { All IsLglWord words.items }
        requires short { length words.items ≤ MAX_ROWS }
        ensures { result.vector ≡ lgl_vector words.items }
    {
        Column {
            store: Store::Lgl(words),
        }
    }

    /// The column of texts with these texts, in order; none is NA.
    pub fn from_texts(texts: Vec<Option<Text>>) -> Result<Column, AllocError>
        requires { length texts.items ≤ MAX_ROWS }
        ensures { IfOk result (λ c. c.vector ≡ text_vector texts.items) }
    {
        Ok(Column {
            store: Store::Chr(texts),
        })
    }

    /// The type of its cells.
    pub fn kind(&self) -> ColType
        ensures { result ≡ self.now.vector.kind }
    {
        match &self.store {
            Store::Lgl(_) => ColType::Lgl,
            Store::Int(_) => ColType::Int,
            Store::Chr(_) => ColType::Chr,
        }
    }

    /// The number of its cells. It also says what is so of every column: each cell is NA or of the
    /// column's type, and there are at most 16,777,216.
    #[tactic(auto, using(crate::proofs::Vectors::stored_vector))]
    pub fn len(&self) -> usize
        ensures count { result ≡ length self.now.vector.cells }
        ensures vector { IsVector self.now.vector }
    {
        match &self.store {
            Store::Lgl(v) => v.len(),
            Store::Int(v) => v.len(),
            Store::Chr(v) => v.len(),
        }
    }

    /// The cell at a place, counted from 0. It touches one cell.
    pub fn cell<L: Ledger>(&self, p: usize, steps: &mut Steps<L>) -> CellRef<'_>
        requires { p < length self.now.vector.cells }
        ensures value { seen result ≡ cell_at self.now.vector.cells p }
        ensures typed { IsOfType self.now.vector.kind (seen result) }
        ensures touches { steps.new ≡ steps.old + 1 }
    {
        steps.tick();
        match &self.store {
            Store::Lgl(v) => lgl_ref(v[p]),
            Store::Int(v) => int_ref(v[p]),
            Store::Chr(v) => text_ref(&v[p]),
        }
    }

    /// All words of a column of integers, in order; -2^63 is NA. It touches each cell.
    pub fn ints<L: Ledger>(&self, steps: &mut Steps<L>) -> &[i64]
        requires { self.now.vector.kind ≡ ColType.Int }
        ensures cells { self.now.vector.cells ≡ map int_cell result.now }
        ensures touches { steps.new ≡ steps.old + length self.now.vector.cells }
    {
        steps.ticks(self.len() as u64);
        match &self.store {
            Store::Int(v) => v,
            Store::Lgl(_) | Store::Chr(_) => unreachable!(),
        }
    }

    /// All words of a column of logicals, in order: 0 is FALSE, 1 is TRUE and 2 is NA. It touches
    /// each cell.
    pub fn lgls<L: Ledger>(&self, steps: &mut Steps<L>) -> &[u8]
        requires { self.now.vector.kind ≡ ColType.Lgl }
        ensures cells { self.now.vector.cells ≡ map lgl_cell result.now }
        ensures words { All IsLglWord result.now }
        ensures touches { steps.new ≡ steps.old + length self.now.vector.cells }
    {
        steps.ticks(self.len() as u64);
        match &self.store {
            Store::Lgl(v) => v,
            Store::Int(_) | Store::Chr(_) => unreachable!(),
        }
    }

    /// All texts of a column of texts, in order; none is NA. It touches each cell.
    pub fn texts<L: Ledger>(&self, steps: &mut Steps<L>) -> &[Option<Text>]
        requires { self.now.vector.kind ≡ ColType.Chr }
        ensures cells { self.now.vector.cells ≡ map text_cell result.now }
        ensures touches { steps.new ≡ steps.old + length self.now.vector.cells }
    {
        steps.ticks(self.len() as u64);
        match &self.store {
            Store::Chr(v) => v,
            Store::Lgl(_) | Store::Int(_) => unreachable!(),
        }
    }

    /// Makes the spare number at least n, and leaves all else.
    pub fn reserve(&mut self, n: usize) -> Result<(), AllocError>
        ensures room { OnOk result (n ≤ self.new.spare) }
        ensures spare { self.old.spare ≤ self.new.spare }
        ensures same { self.new.vector ≡ self.old.vector }
    {
        match &mut self.store {
            Store::Lgl(v) => v.reserve(n),
            Store::Int(v) => v.reserve(n),
            Store::Chr(v) => v.reserve(n),
        }
    }

    /// Adds a cell, NA or of the column's type, at the end. It lowers the spare number by at most
    /// 1, and wants memory only where that is 0. A refused cell leaves all cells. It touches none.
    pub fn push(&mut self, v: Cell) -> Result<(), AllocError>
        requires typed { IsOfType self.old.vector.kind v }
        requires room { length self.old.vector.cells < MAX_ROWS }
        ensures kind { self.new.vector.kind ≡ self.old.vector.kind }
        ensures ok { OnOk result (self.new.vector.cells ≡ self.old.vector.cells ++ v ∷ []) }
        ensures spare { self.old.spare ≤ self.new.spare + 1 }
        ensures err { OnErr result (self.new.vector.cells ≡ self.old.vector.cells) }
        ensures full { OnErr result (self.old.spare ≡ 0) }
    {
        self.store.push(v)
    }

    /// Writes a cell, NA or of the column's type, at a place counted from 0. A text needs a spare
    /// number of 1, and lowers it by at most 1; any other cell leaves it. It takes no memory, and
    /// touches one cell.
    pub fn put<L: Ledger>(&mut self, p: usize, v: Cell, steps: &mut Steps<L>)
        requires place { p < length self.old.vector.cells }
        requires typed { IsOfType self.old.vector.kind v }
        requires room { text_count v ≤ self.old.spare }
        ensures kind { self.new.vector.kind ≡ self.old.vector.kind }
        ensures cells { self.new.vector.cells ≡ slice_set self.old.vector.cells p v }
        ensures spare { self.old.spare ≤ self.new.spare + text_count v }
        ensures same { text_count v ≡ 0 → self.new.spare ≡ self.old.spare }
        ensures touches { steps.new ≡ steps.old + 1 }
    {
        steps.tick();
        self.store.put(p, v);
    }

    /// The cells at these places, counted from 0, in their order, with NA for none. There are at
    /// most 16,777,216 places, each in range. It touches a cell for each place, and takes the
    /// memory of the words at once.
    pub fn gather<L: Ledger>(
        &self,
        alloc: Global,
        rows: &[Option<u32>],
        steps: &mut Steps<L>,
    ) -> Result<Column, AllocError>
        requires places { All (IsWithin (length self.now.vector.cells)) rows.now }
        requires short { length rows.now ≤ MAX_ROWS }
        ensures ok { IfOk result (λ c. c.vector ≡ gathered self.now.vector rows.now) }
        ensures touches { steps.new ≡ steps.old + length rows.now }
    {
        steps.ticks(rows.len() as u64);
        match &self.store {
            Store::Lgl(v) => Ok(Column::from_lgls(gather_lgls(alloc, v, rows)?)),
            Store::Int(v) => Ok(Column::from_ints(gather_ints(alloc, v, rows)?)),
            Store::Chr(v) => Column::from_texts(gather_texts(alloc, v, rows)?),
        }
    }

    /// The same cells once more, in memory of their own. It touches each cell.
    pub fn copy<L: Ledger>(&self, alloc: Global, steps: &mut Steps<L>) -> Result<Column, AllocError>
        ensures ok { IfOk result (λ c. c.vector ≡ self.now.vector) }
        ensures touches { steps.new ≡ steps.old + length self.now.vector.cells }
    {
        steps.ticks(self.len() as u64);
        match &self.store {
            Store::Lgl(v) => Ok(Column::from_lgls(Vec::from_slice(alloc, v)?)),
            Store::Int(v) => Ok(Column::from_ints(Vec::from_slice(alloc, v)?)),
            Store::Chr(v) => Column::from_texts(copied_texts(alloc, v)?),
        }
    }
}

impl Store {
    ghost use Rattle.na_vector.specs.Stored.{seen_of, IsStored};

    fn push(&mut self, v: Cell) -> Result<(), AllocError>
        requires typed { IsOfType (seen_of self.old).vector.kind v }
        requires room { length (seen_of self.old).vector.cells < MAX_ROWS }
        requires stored { IsStored self.old }
        ensures kept { IsStored self.new }
        ensures kind { (seen_of self.new).vector.kind ≡ (seen_of self.old).vector.kind }
        ensures ok { OnOk result ((seen_of self.new).vector.cells
            ≡ (seen_of self.old).vector.cells ++ v ∷ []) }
        ensures spare { (seen_of self.old).spare ≤ (seen_of self.new).spare + 1 }
        ensures err { OnErr result
            ((seen_of self.new).vector.cells ≡ (seen_of self.old).vector.cells) }
        ensures full { OnErr result ((seen_of self.old).spare ≡ 0) }
    {
        match self {
            Store::Lgl(words) => words.push(lgl_word(v))?,
            Store::Int(words) => words.push(int_word(v))?,
            Store::Chr(texts) => texts.push(text_word(v))?,
        }
        Ok(())
    }

    fn put(&mut self, p: usize, v: Cell)
        requires place { p < length (seen_of self.old).vector.cells }
        requires typed { IsOfType (seen_of self.old).vector.kind v }
        requires stored { IsStored self.old }
        ensures kept { IsStored self.new }
        ensures kind { (seen_of self.new).vector.kind ≡ (seen_of self.old).vector.kind }
        ensures cells { (seen_of self.new).vector.cells
            ≡ slice_set (seen_of self.old).vector.cells p v }
        ensures spare { (seen_of self.new).spare ≡ (seen_of self.old).spare }
    {
        match self {
            Store::Lgl(words) => put_lgl(words, p, v),
            Store::Int(words) => put_int(words, p, v),
            Store::Chr(texts) => put_text(texts, p, v),
        }
    }
}

ghost use Rattle.std.specs.Prelude.{vec_len, vec_capacity};

#[tactic(auto, using(crate::proofs::Vectors::sets))]
fn put_lgl(words: &mut Vec<u8>, p: usize, v: Cell)
    requires place { p < vec_len words.old }
    requires typed { IsOfType ColType.Lgl v }
    requires small { All IsLglWord words.old.items }
    ensures kept { All IsLglWord words.new.items }
    ensures cells { map lgl_cell words.new.items ≡ slice_set (map lgl_cell words.old.items) p v }
    ensures len { vec_len words.new ≡ vec_len words.old }
    ensures capacity { vec_capacity words.new ≡ vec_capacity words.old }
{
    words[p] = lgl_word(v);
}

#[tactic(auto, using(crate::proofs::Vectors::sets))]
fn put_int(words: &mut Vec<i64>, p: usize, v: Cell)
    requires place { p < vec_len words.old }
    requires typed { IsOfType ColType.Int v }
    ensures cells { map int_cell words.new.items ≡ slice_set (map int_cell words.old.items) p v }
    ensures len { vec_len words.new ≡ vec_len words.old }
    ensures capacity { vec_capacity words.new ≡ vec_capacity words.old }
{
    words[p] = int_word(v);
}

#[tactic(auto, using(crate::proofs::Vectors::sets))]
fn put_text(texts: &mut Vec<Option<Text>>, p: usize, v: Cell)
    requires place { p < vec_len texts.old }
    requires typed { IsOfType ColType.Chr v }
    ensures cells { map text_cell texts.new.items ≡ slice_set (map text_cell texts.old.items) p v }
    ensures len { vec_len texts.new ≡ vec_len texts.old }
    ensures capacity { vec_capacity texts.new ≡ vec_capacity texts.old }
{
    texts[p] = text_word(v);
}
