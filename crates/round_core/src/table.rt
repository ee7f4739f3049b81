//! Tables of rows in the order of their first entries, which are found by their keys.

ghost use Rattle.std.specs.Prelude.{true, ◌≡◌, ◌≤◌, ◌+◌, ◌<◌, [], map, OnOk, IfSome, MatchOption, length, position, slice_get, Some, None, ◌^◌, vec_len, vec_capacity};
ghost use Rattle.std.specs.Map.{keys_of, lookup};
ghost use Rattle.indexmap.specs.IndexMap.{insert_entry, spare};
ghost use Rattle.std.specs.Option.{option_map};
ghost use Rattle.round_core.specs.Reserved.{HasPlace};
ghost use Rattle.round_core.specs.Rows.{mark_part, value_part, with_entry};

use crate::key::Key;
use indexmap::IndexMap;
use no_memory::Memory;
use std::alloc::Global;
use std::hash::Hash;
use std::marker::Model;
use std::mem;

/// Keys with their values and marks, in the order in which the keys came.
#[derive(Drop)]
pub struct Table<K: Eq + Hash, V, M> {
    marks: IndexMap<K, M>,
    values: Vec<(K, V)>,
}

impl<K: Eq + Hash, V, M> Model for Table<K, V, M> {
    ghost use Rattle.std.specs.Prelude.{◌-◌, min, vec_len, vec_capacity};
    ghost use Rattle.indexmap.specs.IndexMap.{spare};
    ghost use Rattle.round_core.specs.Rows.{Rows, rows_of, AreRowsOf};

    ghost Value = { Rows (K × (V × M)) };

    ghost view = { λ table. record {
      rows = rows_of table.marks.entries table.values.items;
      room = min (spare table.marks) (vec_capacity table.values - vec_len table.values);
    } };

    ghost invariant = { λ table. AreRowsOf table.marks.entries table.values.items };
}

/// Puts a value in the place of its key, or last where there is room. It answers the value that it replaces.
fn put_value<K: Drop, V: Drop>(
    values: &mut Vec<(K, V)>,
    place: Option<usize>,
    key: K,
    value: V,
) -> Option<V>
    requires { HasPlace (vec_len values.old) (vec_capacity values.old) place }
    ensures items { values.new.items ≡ with_entry values.old.items place key value }
    ensures len { vec_len values.new ≤ vec_len values.old + 1 }
    ensures capacity { vec_capacity values.old ≤ vec_capacity values.new }
{
    match place {
        Some(place) => Some(mem::replace(&mut values[place].1, value)),
        None => {
            values.push_reserved((key, value));
            None
        }
    }
}

/// Puts a mark in the place of its key, or last where there is room.
fn put_mark<K: Eq + Hash + Drop, M: Copy>(
    marks: &mut IndexMap<K, M>,
    place: Option<usize>,
    key: K,
    mark: M,
)
    requires place { place ≡ position (K.eq key) (keys_of marks.old.entries) }
    requires room { 0 < spare marks.old }
    ensures entries { marks.new.entries ≡ insert_entry K.eq marks.old.entries key mark }
    ensures spare { spare marks.old ≤ spare marks.new + 1 }
{
    match place {
        Some(place) => marks[place] = mark,
        None => match marks.insert(key, mark) {
            Ok(_) => {}
            Err(_) => unreachable!(),
        },
    }
}

impl<K: Key, V, M: Copy> Table<K, V, M> {
    /// No rows.
    pub fn new(alloc: Global) -> Self
        ensures { result.rows ≡ [] }
    {
        Table {
            marks: IndexMap::new(alloc),
            values: Vec::new(alloc),
        }
    }

    /// The keys with their values.
    pub fn as_slice(&self) -> &[(K, V)]
        ensures { result.now ≡ map value_part self.now.rows }
    {
        self.values.as_slice()
    }

    /// The keys with their marks, and the keys with their values.
    pub fn into_parts(self) -> (IndexMap<K, M>, Vec<(K, V)>)
        ensures marks { result.0.entries ≡ map mark_part self.rows }
        ensures values { result.1.items ≡ map value_part self.rows }
    {
        let Table { marks, values } = self;
        (marks, values)
    }

    /// The allocator.
    pub fn allocator(&self) -> Global {
        *self.values.allocator()
    }

    /// How many rows there are.
    pub fn len(&self) -> usize
        ensures len { result ≡ length self.now.rows }
        ensures small { result < 2 ^ 63 }
    {
        self.marks.len()
    }

    /// The place of a key.
    pub fn place(&self, key: &K) -> Option<usize>
        ensures { result ≡ position (K.eq key.now) (keys_of self.now.rows) }
    {
        self.marks.get_index_of(key)
    }

    /// Whether a key stands at a place.
    fn stands_at(&self, key: &K, place: usize) -> bool
        ensures { result ≡ true → position (K.eq key.now) (keys_of self.now.rows) ≡ Some place }
    {
        match self.marks.as_slice().get_index(place) {
            Some((stored, _)) => key.is_same(stored),
            None => false,
        }
    }

    /// The place of a key, which is quickly found where the guess is right.
    pub fn place_near(&self, key: &K, guess: usize) -> Option<usize>
        ensures { result ≡ position (K.eq key.now) (keys_of self.now.rows) }
    {
        if self.stands_at(key, guess) {
            Some(guess)
        } else {
            self.place(key)
        }
    }

    /// The place of a key, its value, and its mark, which are quickly found where the guess is right.
    pub fn find_near(&self, key: &K, guess: usize) -> Option<(usize, &V, M)>
        ensures place { option_map (λ found. found.0) result ≡ position (K.eq key.now) (keys_of self.now.rows) }
        ensures row { MatchOption result (lookup (K.eq key.now) self.now.rows ≡ None) (λ found. lookup (K.eq key.now) self.now.rows ≡ Some (found.1.now, found.2)) }
    {
        let index = self.place_near(key, guess)?;
        let (_, mark) = self.marks.get_index(index)?;
        let (_, value) = self.values.get(index)?;
        Some((index, value, *mark))
    }

    /// The row at a place: its key, its value and its mark, which is what the key is found with.
    pub fn at(&self, place: usize) -> Option<(&K, &V, M)>
        ensures row { MatchOption result (length self.now.rows ≤ place) (λ found. slice_get self.now.rows place ≡ Some (found.0.now, (found.1.now, found.2))) }
        ensures mark { IfSome result (λ found. lookup (K.eq found.0.now) (map mark_part self.now.rows) ≡ Some found.2) }
    {
        match (self.marks.get_index(place), self.values.get(place)) {
            (Some((key, mark)), Some((_, value))) => Some((key, value, *mark)),
            _ => None,
        }
    }

    /// Room for more rows. They stay as they are.
    pub fn reserve(&mut self, more: usize) -> Result<(), Memory>
        ensures rows { self.new.rows ≡ self.old.rows }
        ensures room { OnOk result (more ≤ self.new.room) }
    {
        self.marks.reserve(more)?;
        self.values.reserve(more)?;
        Ok(())
    }

    /// Gives a key a value and a mark, in its place or last. There is room for it. It answers the value that it replaces.
    pub fn set_at(&mut self, place: Option<usize>, key: K, value: V, mark: M) -> Option<V>
    where
        V: Drop,
        requires place { place ≡ position (K.eq key) (keys_of self.old.rows) }
        requires room { 0 < self.old.room }
        ensures rows { self.new.rows ≡ insert_entry K.eq self.old.rows key (value, mark) }
        ensures room { self.old.room ≤ self.new.room + 1 }
    {
        let replaced = put_value(&mut self.values, place, key, value);
        put_mark(&mut self.marks, place, key, mark);
        replaced
    }
}
