ghost use Rattle.std.specs.Prelude.{◌≡◌, [], None, Some};
ghost use Rattle.dt_base.specs.Warns.{no_warns};
ghost use Rattle.stmt_change.specs.Effects.{no_change, FitsIn};
ghost use Rattle.table_heap.specs.Seen.{HeapSeen};

use crate::change::Change;
use dt_base::{Text, Warns};
use std::alloc::Global;

/// A file that a statement writes.
#[derive(Drop)]
pub struct Written {
    pub name: Text,
    pub bytes: Vec<u8>,
}

/// What a statement does: the text for the output, the file that it writes, its warnings, and its
/// change.
#[derive(Drop)]
pub struct Effect {
    pub text: Vec<u8>,
    pub file: Option<Written>,
    pub warns: Warns,
    pub change: Change,
}

impl Effect {
    /// Nothing is done.
    pub fn nothing(alloc: Global) -> Effect
        ensures text { result.text.items ≡ [] }
        ensures file { result.file ≡ None }
        ensures warns { result.warns ≡ no_warns }
        ensures change { result.change ≡ no_change }
        ensures fits { (h : HeapSeen) → FitsIn h result.change }
    {
        Effect::prints(Vec::new(alloc), Warns::none())
    }

    /// A text is put.
    pub fn prints(text: Vec<u8>, warns: Warns) -> Effect
        ensures text { result.text ≡ text }
        ensures file { result.file ≡ None }
        ensures warns { result.warns ≡ warns }
        ensures change { result.change ≡ no_change }
        ensures fits { (h : HeapSeen) → FitsIn h result.change }
    {
        Effect {
            text,
            file: None,
            warns,
            change: Change::nothing(),
        }
    }

    /// A file is written.
    pub fn writes(alloc: Global, file: Written, warns: Warns) -> Effect
        ensures text { result.text.items ≡ [] }
        ensures file { result.file ≡ Some file }
        ensures warns { result.warns ≡ warns }
        ensures change { result.change ≡ no_change }
        ensures fits { (h : HeapSeen) → FitsIn h result.change }
    {
        Effect {
            text: Vec::new(alloc),
            file: Some(file),
            warns,
            change: Change::nothing(),
        }
    }

    /// A change is made.
    pub fn changes(alloc: Global, change: Change, warns: Warns) -> Effect
        ensures text { result.text.items ≡ [] }
        ensures file { result.file ≡ None }
        ensures warns { result.warns ≡ warns }
        ensures change { result.change ≡ change }
    {
        Effect {
            text: Vec::new(alloc),
            file: None,
            warns,
            change,
        }
    }
}
