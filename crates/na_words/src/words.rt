ghost use Rattle.std.specs.Prelude.{◌≡◌, ◌≤◌, ◌+◌, ◌^◌, length, map, All, IfOk, IfSome};
ghost use Rattle.dt_base.specs.declared.cell.Cell.{Cell};
ghost use Rattle.dt_base.specs.declared.cell.Cell.TheVariants as is;
ghost use Rattle.dt_base.specs.declared.cell.ColType.{ColType as Kind};
ghost use Rattle.dt_base.specs.declared.cell.ColType.TheVariants as ty;
ghost use Rattle.dt_base.specs.declared.limits.TheConstants.{MAX_ROWS};
ghost use Rattle.dt_model.specs.Coercion.{is_na, to_lgl, to_int, to_text, brought};
ghost use Rattle.dt_model.specs.Operations.{number};
ghost use Rattle.na_vector.specs.Words.{int_cell, lgl_cell, text_cell, IsLglWord};
ghost use Rattle.na_words.specs.Shown.{shown, IsShown, vector_from};

use cell_text::{integer_of, truth_of, truth_text};
use dt_base::limits::NA_WORD;
use dt_base::{ColType, Steps, Text};
use itoa::Buffer;
use na_vector::{Column, NA_LGL};
use std::alloc::{AllocError, Global};
use std::sync::ledger::Ledger;

/// The words of a column.
#[derive(Clone, Copy)]
pub enum Words<'a> {
    Lgl(&'a [u8]),
    Int(&'a [i64]),
    Chr(&'a [Option<Text>]),
}

/// The words of a column, which touches each cell.
pub fn words_of<'a, L: Ledger>(column: &'a Column, steps: &mut Steps<L>) -> Words<'a>
    ensures vector { shown result ≡ column.entry.now.vector }
    ensures shown { IsShown result }
    ensures touches { steps.new ≡ steps.old + length column.entry.now.vector.cells }
{
    let _short = column.len();
    match column.kind() {
        ColType::Lgl => Words::Lgl(column.lgls(steps)),
        ColType::Int => Words::Int(column.ints(steps)),
        ColType::Chr => Words::Chr(column.texts(steps)),
    }
}

/// A stored cell of a column.
pub trait Word {
    /// The cell that it stands for.
    ghost cell: { Self → Cell };

    /// The type of the column.
    ghost kind: { Kind };

    /// Whether a column may hold it.
    ghost fine: { Self → Type 0 };

    /// The type of the column.
    fn kind() -> ColType
        ensures { result ≡ kind };

    /// Whether it is NA.
    fn is_na(&self) -> bool
        ensures { result ≡ is_na (cell self.now) };

    /// It, brought to a logical.
    fn to_lgl(&self) -> u8
        ensures word { lgl_cell result ≡ to_lgl (cell self.now) }
        ensures fine { IsLglWord result };

    /// It, brought to an integer.
    fn to_int(&self) -> i64
        ensures { int_cell result ≡ to_int (cell self.now) };

    /// It, brought to a text.
    fn to_text(&self, alloc: Global) -> Result<Option<Text>, AllocError>
        ensures { IfOk result (λ t. text_cell t ≡ to_text (cell self.now)) };
}

/// A stored cell that others are brought to.
pub trait Target: Word {
    /// A word, brought to this type.
    fn of<A: Word>(alloc: Global, x: &A) -> Result<Self, AllocError>
        ensures word { IfOk result (λ w. Self.cell w ≡ brought Self.kind (A.cell x.now)) }
        ensures fine { IfOk result Self.fine };

    /// The word of NA.
    fn na() -> Self
        ensures word { Self.cell result ≡ is.Na }
        ensures fine { Self.fine result };

    /// The column of these words.
    fn column(words: Vec<Self>) -> Result<Column, AllocError>
        requires fine { All Self.fine words.items }
        requires short { length words.items ≤ MAX_ROWS }
        ensures { IfOk result (λ c. c.vector ≡ vector_from Self.kind (map Self.cell words.items)) };
}

/// A stored number.
pub trait Number: Word {
    /// The integer that it counts as.
    fn number(&self) -> i64
        ensures { number (int_cell result) ≡ number (Self.cell self.now) };
}

impl Word for u8 {
    ghost cell = { lgl_cell };

    ghost kind = { ty.Lgl };

    ghost fine = { IsLglWord };

    fn kind() -> ColType {
        ColType::Lgl
    }

    fn is_na(&self) -> bool {
        *self == NA_LGL
    }

    fn to_lgl(&self) -> u8 {
        match *self {
            NA_LGL => NA_LGL,
            1 => 1,
            _ => 0,
        }
    }

    fn to_int(&self) -> i64 {
        match *self {
            NA_LGL => NA_WORD,
            1 => 1,
            _ => 0,
        }
    }

    fn to_text(&self, alloc: Global) -> Result<Option<Text>, AllocError> {
        if *self == NA_LGL {
            return Ok(None);
        }
        Ok(Some(Text::make(alloc, truth_text(*self == 1))?))
    }
}

impl Word for i64 {
    ghost cell = { int_cell };

    ghost kind = { ty.Int };

    ghost fine = { λ n. Unit {0} };

    fn kind() -> ColType {
        ColType::Int
    }

    fn is_na(&self) -> bool {
        *self == NA_WORD
    }

    fn to_lgl(&self) -> u8 {
        if *self == NA_WORD {
            return NA_LGL;
        }
        (*self != 0) as u8
    }

    fn to_int(&self) -> i64 {
        *self
    }

    fn to_text(&self, alloc: Global) -> Result<Option<Text>, AllocError> {
        if *self == NA_WORD {
            return Ok(None);
        }
        Ok(Some(decimal(alloc, *self)?))
    }
}

impl Word for Option<Text> {
    ghost cell = { text_cell };

    ghost kind = { ty.Chr };

    ghost fine = { λ t. Unit {0} };

    fn kind() -> ColType {
        ColType::Chr
    }

    fn is_na(&self) -> bool {
        self.is_none()
    }

    fn to_lgl(&self) -> u8 {
        match self {
            None => NA_LGL,
            Some(t) => match truth_of(t.as_str().as_bytes()) {
                None => NA_LGL,
                Some(b) => b as u8,
            },
        }
    }

    fn to_int(&self) -> i64 {
        match self {
            None => NA_WORD,
            Some(t) => match integer_of(t.as_str().as_bytes()) {
                None => NA_WORD,
                Some(n) => n,
            },
        }
    }

    fn to_text(&self, _alloc: Global) -> Result<Option<Text>, AllocError> {
        match self {
            None => Ok(None),
            Some(t) => Ok(Some(t.copy()?)),
        }
    }
}

impl Target for u8 {
    fn of<A: Word>(_alloc: Global, x: &A) -> Result<u8, AllocError> {
        Ok(x.to_lgl())
    }

    fn na() -> u8 {
        NA_LGL
    }

    fn column(words: Vec<u8>) -> Result<Column, AllocError>
        requires fine { All IsLglWord words.items }
        requires short { length words.items ≤ MAX_ROWS }
        ensures { IfOk result (λ c. c.vector ≡ vector_from ty.Lgl (map lgl_cell words.items)) }
    {
        Ok(Column::from_lgls(words))
    }
}

impl Target for i64 {
    fn of<A: Word>(_alloc: Global, x: &A) -> Result<i64, AllocError> {
        Ok(x.to_int())
    }

    fn na() -> i64 {
        NA_WORD
    }

    fn column(words: Vec<i64>) -> Result<Column, AllocError>
        requires fine { All (λ n. Unit {0}) words.items }
        requires short { length words.items ≤ MAX_ROWS }
        ensures { IfOk result (λ c. c.vector ≡ vector_from ty.Int (map int_cell words.items)) }
    {
        Ok(Column::from_ints(words))
    }
}

impl Target for Option<Text> {
    fn of<A: Word>(alloc: Global, x: &A) -> Result<Option<Text>, AllocError> {
        x.to_text(alloc)
    }

    fn na() -> Option<Text> {
        None
    }

    fn column(words: Vec<Option<Text>>) -> Result<Column, AllocError>
        requires fine { All (λ t. Unit {0}) words.items }
        requires short { length words.items ≤ MAX_ROWS }
        ensures { IfOk result (λ c. c.vector ≡ vector_from ty.Chr (map text_cell words.items)) }
    {
        Column::from_texts(words)
    }
}

impl Number for u8 {
    fn number(&self) -> i64 {
        self.to_int()
    }
}

impl Number for i64 {
    fn number(&self) -> i64 {
        *self
    }
}

ghost use Rattle.std.specs.Fmt.{signed_decimal};

/// The decimal text of an integer.
fn decimal(alloc: Global, n: i64) -> Result<Text, AllocError>
    ensures { IfOk result (λ t. t ≡ signed_decimal n) }
{
    let mut buffer = Buffer::new();
    Text::make(alloc, buffer.format(n))
}
