ghost use Rattle.std.specs.Prelude.{◌≡◌};
ghost use Rattle.dt_model.specs.Coercion.{common};

use dt_base::ColType;

/// The number of types. A new type is a new row and a new column of the table.
const TYPES: usize = 3;

/// The common types.
const COMMON: [[ColType; TYPES]; TYPES] = [
    [ColType::Lgl, ColType::Int, ColType::Chr],
    [ColType::Int, ColType::Int, ColType::Chr],
    [ColType::Chr, ColType::Chr, ColType::Chr],
];

/// The common type of two types, which is the higher one.
///
/// dtq's own rule, docs/LANGUAGE.md, section "Operators".
pub fn common(a: ColType, b: ColType) -> ColType
    ensures { result ≡ common a b }
{
    COMMON[a as usize][b as usize]
}
