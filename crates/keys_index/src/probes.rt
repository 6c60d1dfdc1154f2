ghost use Rattle.std.specs.Prelude.{◌≡◌, ◌<◌, ◌==◌, ◌||◌, IfSome, Some, length, map, nat_le};
ghost use Rattle.std.specs.Prelude.{option_map, slice_get};
ghost use Rattle.std.specs.List.{list_all, list_any};
ghost use Rattle.assign_model.specs.Assign.{names_in};
ghost use Rattle.dt_model.specs.Table.{name_at, place_of};
ghost use Rattle.dt_table.specs.Plain.{plain};
ghost use Rattle.func_table.specs.Calls.{func_of};
ghost use Rattle.func_table.specs.Special.{special_of};
ghost use Rattle.keys_index.specs.Probes.{index_column, is_description, is_member, leads};
ghost use Rattle.keys_index.specs.Probes.{leads_index, probe_seen};
ghost use Rattle.session_model.specs.AutoIndex.{adds_index, head_at, is_apart, names_nothing};
ghost use Rattle.session_model.specs.AutoIndex.{of_column, probe_at, probe_in, type_place};
ghost use Rattle.session_model.specs.Form.{name_in};
ghost use Rattle.session_model.specs.Indices.{begins_with};
ghost use Rattle.session_model.specs.Items.{bare_item};
ghost use Rattle.session_model.specs.Meaning.{arg_meaning, args_mention, call_mentions};
ghost use Rattle.session_model.specs.Meaning.{chain_probe, column_probe, meaning, probed_by};
ghost use Rattle.session_model.specs.Meaning.{tail_meaning, tails_mention};

use arg_bind::bare_name;
use dt_base::{ColName, ColType, Op};
use dt_table::Table;
use dt_tree::{Arg, BinOp, Expr, Tail};
use func_table::{Kind, func_named, kind_of, special_named};

/// How a column stands beside a value: `==` or `%in%`.
#[derive(Clone, Copy)]
pub enum ProbeOp {
    Equal,
    Member,
}

/// A column, counted from 0, beside a value that names nothing of its table.
#[derive(Clone, Copy)]
pub struct Probe<'a> {
    pub col: usize,
    pub op: ProbeOp,
    pub right: &'a Expr,
}

// ---- What an expression mentions

/// The place of the column with this name, or none where no column has it.
fn place(names: &[ColName], name: &str) -> Option<usize>
    ensures { result ≡ place_of name.now names.now }
{
    names.iter().position(|n| n.as_str() == name)
}

/// Whether the name is no column, and none that has a meaning of its own in a bracket.
fn is_apart(names: &[ColName], name: &str) -> bool
    ensures { result ≡ is_apart names.now name.now }
{
    place(names, name).is_none() && special_named(name).is_none()
}

/// Whether the expression names nothing of the table with these columns.
#[cycle(mentions)]
#[tactic(auto, using(crate::proofs::Probing::mentioned))]
fn names_nothing(names: &[ColName], e: &Expr) -> bool
    ensures { result ≡ names_nothing names.now (meaning e.now).mentions }
{
    match e {
        Expr::Lit { .. } | Expr::Null | Expr::Infinite => true,
        Expr::Name { name } => is_apart(names, name.as_str()),
        Expr::Paren { inner } => names_nothing(names, inner.get()),
        Expr::Minus { arg } | Expr::Not { arg } => names_nothing(names, arg.get()),
        Expr::Chain { first, rest } => {
            names_nothing(names, first.get()) && tails_name_nothing(names, rest.as_slice())
        }
        Expr::Call { name, args } => call_names_nothing(names, name.as_str(), args.as_slice()),
        Expr::Query { .. } | Expr::Formula { .. } => true,
    }
}

/// Whether the right sides of these operators name nothing of the table.
#[cycle(mentions)]
#[tactic(auto, using(crate::proofs::Probing::mentioned))]
fn tails_name_nothing(names: &[ColName], tails: &[Tail]) -> bool
    ensures { result ≡ list_all (is_apart names.now) (tails_mention (map tail_meaning tails.now)) }
{
    for tail in tails {
        if !names_nothing(names, &tail.arg) {
            return false;
        }
    }
    true
}

/// Whether this names a function that tells of a table, whose argument is no name of a vector.
fn is_description(name: &str) -> bool
    ensures { result ≡ is_description (func_of name.now) }
{
    match func_named(name) {
        Some(f) => matches!(kind_of(f), Kind::Description),
        None => false,
    }
}

/// Whether the call names nothing of the table; what is told of a table mentions no name.
#[cycle(mentions)]
#[tactic(auto, using(crate::proofs::Probing::mentioned))]
fn call_names_nothing(names: &[ColName], name: &str, args: &[Arg]) -> bool
    ensures { result ≡ list_all (is_apart names.now)
        (call_mentions (func_of name.now) (map arg_meaning args.now)) }
{
    is_description(name) || args_name_nothing(names, args)
}

/// Whether these arguments name nothing of the table.
#[cycle(mentions)]
#[tactic(auto, using(crate::proofs::Probing::mentioned))]
fn args_name_nothing(names: &[ColName], args: &[Arg]) -> bool
    ensures { result ≡ list_all (is_apart names.now) (args_mention (map arg_meaning args.now)) }
{
    for arg in args {
        if !names_nothing(names, &arg.value) {
            return false;
        }
    }
    true
}

// ---- The probe

/// The column of this name beside the value, where it is a column and the value names nothing of
/// the table.
fn of_column<'a>(names: &[ColName], name: &str, op: ProbeOp, right: &'a Expr) -> Option<Probe<'a>>
    ensures probe { option_map (probe_seen names.now) result ≡ of_column names.now
        (record {
          column = name.now;
          member = is_member op;
          right = bare_item (meaning right.now);
        }) }
    ensures col { IfSome result (λ p. p.col < length names.now) }
{
    let col = place(names, name)?;
    if names_nothing(names, right) {
        Some(Probe { col, op, right })
    } else {
        None
    }
}

/// The column of this name with an operator and the value behind it.
fn probed_by<'a>(names: &[ColName], name: &str, op: BinOp, right: &'a Expr) -> Option<Probe<'a>>
    ensures probe { option_map (probe_seen names.now) result
        ≡ probe_at names.now (probed_by op name.now (meaning right.now)) }
    ensures col { IfSome result (λ p. p.col < length names.now) }
{
    match op {
        BinOp::Arith(Op::Eq) => of_column(names, name, ProbeOp::Equal, right),
        BinOp::In => of_column(names, name, ProbeOp::Member, right),
        _ => None,
    }
}

/// The same, where the name has no meaning of its own in a bracket.
fn column_probe<'a>(names: &[ColName], name: &str, tail: &'a Tail) -> Option<Probe<'a>>
    ensures probe { option_map (probe_seen names.now) result
        ≡ probe_at names.now (column_probe (special_of name.now) name.now (tail_meaning tail.now)) }
    ensures col { IfSome result (λ p. p.col < length names.now) }
{
    if special_named(name).is_some() {
        return None;
    }
    probed_by(names, name, tail.op, &tail.arg)
}

/// The same of a chain of operators, which has one.
fn chain_probe<'a>(names: &[ColName], first: &'a Expr, rest: &'a [Tail]) -> Option<Probe<'a>>
    ensures probe { option_map (probe_seen names.now) result ≡ probe_at names.now
        (chain_probe (name_in (meaning first.now).form) (map tail_meaning rest.now)) }
    ensures col { IfSome result (λ p. p.col < length names.now) }
{
    match (bare_name(first), rest) {
        (Some(name), [tail]) => column_probe(names, name, tail),
        _ => None,
    }
}

/// What an i is that an index of one column can answer: `column == value` or `column %in% value`,
/// where the value names no column of the table, and none of `.N`, `.I`, `.GRP` and `.SD`. Anything
/// else is none.
///
/// It looks at the expression as it is written and at the names of the columns, once for each name
/// in the value. It touches no cell and takes no memory.
pub fn probe_of<'a>(t: &Table, i: &'a Expr) -> Option<Probe<'a>>
    ensures probe { option_map (probe_seen t.now.names) result
        ≡ probe_in (plain t.now) (meaning i.now) }
    ensures col { IfSome result (λ p. p.col < length t.now.names) }
{
    let names = t.names();
    match i {
        Expr::Chain { first, rest } => chain_probe(names, first.get(), rest.as_slice()),
        _ => None,
    }
}

// ---- Whether its column gets an index

/// Whether the column is the first of these.
fn leads(cols: &[usize], col: usize) -> bool
    ensures { result ≡ leads col cols.now }
{
    match cols {
        [first, ..] => *first == col,
        [] => false,
    }
}

/// Whether this index, counted from 0, begins with the column.
fn leads_index(t: &Table, k: usize, col: usize) -> bool
    requires { k < length t.now.indices }
    ensures { result ≡ leads_index col (slice_get t.now.indices k) }
{
    leads(&t.index(k).cols, col)
}

/// Whether some index begins with the column.
fn leads_some(t: &Table, col: usize) -> bool
    ensures { result ≡ list_any (λ x. leads col x.cols) t.now.indices }
{
    for k in 0..t.index_count() {
        if leads_index(t, k, col) {
            return true;
        }
    }
    false
}

/// Whether the key of the table, or one of its indices, begins with this column. It looks at no
/// cell.
pub fn begins_with(t: &Table, col: usize) -> bool
    requires { col < length t.now.names }
    ensures { result ≡ begins_with (name_at t.now.names col) (plain t.now) }
{
    leads(t.key(), col) || leads_some(t, col)
}

/// Whether a type is not above another; types rise from logicals to integers to texts.
fn is_within(kind: ColType, other: ColType) -> bool
    ensures { result ≡ nat_le (type_place kind) (type_place other) }
{
    match (kind, other) {
        (ColType::Lgl, _) | (_, ColType::Chr) | (ColType::Int, ColType::Int) => true,
        _ => false,
    }
}

/// The type of a column.
fn kind_at(t: &Table, col: usize) -> ColType
    requires { col < length t.now.names }
    ensures { head_at (plain t.now).columns
        (place_of (name_at t.now.names col) (names_in (plain t.now)))
        ≡ Some (record { name = name_at t.now.names col; kind = result }) }
{
    t.frame().col(col).kind()
}

/// Whether each length serves the operator, or this one does: a value beside `==` has one cell.
fn is_fit(op: ProbeOp, len: usize) -> bool
    ensures { result ≡ (is_member op || len == 1) }
{
    match op {
        ProbeOp::Equal => len == 1,
        ProbeOp::Member => true,
    }
}

/// The column that gets an index when a statement succeeds whose i is this: the probe's, where the
/// option is on, the type of the value is not above the column's, the value beside `==` has one
/// cell, and neither the key nor an index begins with the column. Else it is none.
///
/// `kind` and `len` are the type and the length of the probe's value, over all rows. It looks at no
/// cell.
pub fn auto_index_for(
    t: &Table,
    p: &Probe<'_>,
    kind: ColType,
    len: usize,
    auto: bool,
) -> Option<usize>
    requires { p.now.col < length t.now.names }
    ensures { result ≡ index_column
        (adds_index (plain t.now) (probe_seen t.now.names p.now) kind len auto) p.now.col }
{
    if !auto {
        return None;
    }
    if !is_within(kind, kind_at(t, p.col)) {
        return None;
    }
    if !is_fit(p.op, len) {
        return None;
    }
    if begins_with(t, p.col) {
        return None;
    }
    Some(p.col)
}
