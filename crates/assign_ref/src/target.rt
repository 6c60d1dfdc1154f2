use dt_base::ColName;
use na_vector::Column;

/// A column's name, and the value that it gets; none deletes the column.
#[derive(Drop)]
pub struct Target {
    pub name: ColName,
    pub value: Option<Column>,
}
