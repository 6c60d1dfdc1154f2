ghost use Rattle.std.specs.Prelude.{◌≡◌, ◌<◌, ◌^◌, ◌++◌, ◌∷◌, [], IfOk, OnOk, length};
ghost use Rattle.std.specs.Prelude.{slice_index_or};
ghost use Rattle.std.specs.Cmp.Lexicographic.{pointwise};
ghost use Rattle.std.specs.Str.{bytes_eq};
ghost use Rattle.csv.specs.Records.{fields_of};
ghost use Rattle.header_names.specs.Taken.{TakenUpTo, TakenBelow};
ghost use Rattle.run_model.specs.CsvNames as file;

use csv::StringRecord;
use dt_base::{ColName, Text, Warn, Warns};
use std::alloc::{AllocError, Global};
use std::collections::{HashMap, HashSet};
use std::marker::Model;

/// Names in order, with a set of them to look one up. Contracts see the list.
#[derive(Drop)]
struct Names {
    list: Vec<ColName>,
    set: HashSet<Text>,
    // The last number that was put behind a name: it and all below it are taken. So no number is
    // tried twice for one name, and many equal headers take no more time than others.
    numbers: HashMap<Text, usize>,
}

impl Model for Names {
    ghost use Rattle.std.specs.Prelude.{◌≡◌, List, ℕ};
    ghost use Rattle.std.specs.HashMap as hash;
    ghost use Rattle.std.specs.List.{list_any};
    ghost use Rattle.std.specs.Option.{unwrap_or};
    ghost use Rattle.std.specs.Str.{bytes_eq};
    ghost use Rattle.header_names.specs.Taken.{TakenUpTo};

    ghost Value = { List (List ℕ) };

    ghost view = { λ n. n.list.items };

    ghost invariant = { λ n. ((q : List ℕ)
        → list_any (bytes_eq q) n.set.keys ≡ list_any (bytes_eq q) n.list.items)
        × ((q : List ℕ) → TakenUpTo (unwrap_or (hash.get bytes_eq n.numbers q) 0) q n.list.items) };
}

impl Names {
    fn new(alloc: Global) -> Names
        ensures { result ≡ [] }
    {
        Names {
            list: Vec::new(alloc),
            set: HashSet::new(alloc),
            numbers: HashMap::new(alloc),
        }
    }

    fn len(&self) -> usize
        ensures count { result ≡ length self.now }
        ensures small { length self.now < 2 ^ 63 }
    {
        self.list.len()
    }

    /// Whether the name is one of these.
    fn has(&self, name: &Text) -> bool
        ensures { result ≡ file.is_among name.now self.now }
    {
        self.set.contains(name)
    }

    /// The last number that was put behind a name, or 0.
    fn number_of(&self, name: &Text) -> usize
        ensures { TakenUpTo result name.now self.now }
    {
        match self.numbers.get(name) {
            Some(number) => *number,
            None => 0,
        }
    }

    /// Notes the last number that was put behind a name.
    fn note(&mut self, name: Text, number: usize) -> Result<(), AllocError>
        requires { TakenUpTo number name self.old }
        ensures { OnOk result (self.new ≡ self.old) }
    {
        self.numbers.insert(name, number)?;
        Ok(())
    }

    /// Adds a name at the end. A refused name leaves the names.
    fn push(&mut self, name: Text) -> Result<(), AllocError>
        ensures { OnOk result (self.new ≡ self.old ++ name ∷ []) }
    {
        self.list.reserve(1)?;
        self.set.insert(name.copy()?)?;
        match self.list.push(name) {
            Ok(()) => Ok(()),
            Err(_) => unreachable!(),
        }
    }

    fn into_list(self) -> Vec<ColName>
        ensures { result.items ≡ self }
    {
        let Names {
            list,
            set: _,
            numbers: _,
        } = self;
        list
    }
}

/// The names that a header gives to the columns, from left to right: an empty header is named after
/// its place, and a name that stands already gets the least number that makes it new.
///
/// dtq's own rule, docs/LANGUAGE.md, section "CSV files".
pub fn column_names(alloc: Global, header: &StringRecord) -> Result<Vec<ColName>, AllocError>
    ensures { IfOk result (λ names. names.items ≡ file.column_names (fields_of header.now)) }
{
    let mut names = Names::new(alloc);
    for i in 0..header.len() {
        let base = base_name(alloc, field_at(header, i), i + 1)?;
        push_new(alloc, &mut names, base)?;
    }
    Ok(names.into_list())
}

/// The header of a column, counted from 0.
fn field_at(header: &StringRecord, i: usize) -> &str
    requires { i < length (fields_of header.now) }
    ensures { result.now ≡ slice_index_or (fields_of header.now) i [] }
{
    match header.get(i) {
        Some(field) => field,
        None => unreachable!(),
    }
}

/// The warning where a name is not its header.
pub fn name_warns(names: &[ColName], header: &StringRecord) -> Warns
    requires { names.now ≡ file.column_names (fields_of header.now) }
    ensures { result ≡ file.name_warns (fields_of header.now) }
{
    if same_texts(names, header) {
        Warns::none()
    } else {
        Warns::none().with(Warn::W06)
    }
}

/// Whether each name is the header at its place, and there are as many.
fn same_texts(names: &[ColName], header: &StringRecord) -> bool
    ensures { result ≡ pointwise bytes_eq names.now (fields_of header.now) }
{
    if names.len() != header.len() {
        return false;
    }
    for (i, name) in names.iter().enumerate() {
        if name.as_str() != field_at(header, i) {
            return false;
        }
    }
    true
}

/// The name of a header at a place, counted from 1, before it is made new.
fn base_name(alloc: Global, header: &str, place: usize) -> Result<Text, AllocError>
    ensures { IfOk result (λ name. name ≡ file.base_name place header.now) }
{
    if header.is_empty() {
        return Ok(Text::from_string(format!(in alloc; "V{place}")?));
    }
    Text::make(alloc, header)
}

/// Adds the name, with a number where it stands already.
fn push_new(alloc: Global, names: &mut Names, base: Text) -> Result<(), AllocError>
    ensures { OnOk result (names.new ≡ names.old ++ file.new_name names.old base ∷ []) }
{
    if names.has(&base) {
        push_numbered(alloc, names, base)
    } else {
        names.push(base)
    }
}

/// Adds the name with the least number that makes it new.
fn push_numbered(alloc: Global, names: &mut Names, base: Text) -> Result<(), AllocError>
    ensures { OnOk result (names.new ≡ names.old
        ++ file.numbered base (file.least_new names.old base) ∷ []) }
{
    let number = least_number(alloc, names, &base)?;
    let name = numbered(alloc, base.as_str(), number)?;
    names.push(name)?;
    names.note(base, number)
}

/// The least number from 1 on that makes the name new.
fn least_number(alloc: Global, names: &Names, base: &Text) -> Result<usize, AllocError>
    ensures least { IfOk result (λ k. k ≡ file.least_new names.now base.now) }
    ensures taken { IfOk result (λ k. TakenBelow k base.now names.now) }
{
    let len = names.len();
    let last = names.number_of(base);
    for k in last + 1..len + 2 {
        let name = numbered(alloc, base.as_str(), k)?;
        if !names.has(&name) {
            return Ok(k);
        }
    }
    unreachable!()
}

/// The name with a number behind it.
fn numbered(alloc: Global, base: &str, k: usize) -> Result<Text, AllocError>
    ensures { IfOk result (λ name. name ≡ file.numbered base.now k) }
{
    Ok(Text::from_string(format!(in alloc; "{base}.{k}")?))
}
