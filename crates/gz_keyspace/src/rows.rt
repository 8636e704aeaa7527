//! Rows of keys in order.
ghost use Rattle.std.specs.Prelude.{◌≡◌, ◌+◌, ◌<◌, ◌≤◌, IfOk, IfErr, option_map, vec_len, vec_capacity};
ghost use Rattle.std.specs.Ordering.{nat_cmp};
ghost use Rattle.std.specs.Cmp.Lexicographic.{slice_cmp};
ghost use Rattle.std.specs.VecDeque.{deque_len};
ghost use Rattle.gz_keyspace.specs.Keys.{put, delete, held_at, same_key};
ghost use Rattle.std.specs.List.Sorted.{IsPermutation, IsSortedBy};
ghost use Rattle.indexmap.specs.IndexMap.{IsUnique};
ghost use Rattle.gz_keyspace.specs.Mirrors.{IsAscending};
ghost use Rattle.gz_keyspace.specs.Rows.{IsAt, IsGap, after_prepared, is_less};

use crate::table::{Held, Prepared};
use gz_label::{Name, NoMemory};
use indexmap::IndexMap;
use std::alloc::Global;
use std::cmp::Ordering;
use std::collections::VecDeque;

// Where the key's row is, or where it would go.
fn place_of(rows: &[(Name, Held)], key: &Name) -> Result<usize, usize>
    requires { IsAscending rows.now }
    ensures found { IfOk result (IsAt key.now rows.now) }
    ensures absent { IfErr result (IsGap key.now rows.now) }
{
    let compare = |row: &(Name, Held)| -> Ordering
        ensures { result ≡ slice_cmp nat_cmp row.now.0 key.entry.now }
    { row.0.cmp(key) };
    rows.binary_search_by(compare)
}

/// What the key has.
pub fn find<'a>(rows: &'a [(Name, Held)], key: &Name) -> Option<&'a Held>
    requires { IsAscending rows.now }
    ensures { option_map (λ held. held.now) result ≡ held_at key.now rows.now }
{
    match place_of(rows, key) {
        Ok(place) => Some(&rows[place].1),
        Err(_) => None,
    }
}

// Gives the key this. It takes no memory.
fn put_row(rows: &mut Vec<(Name, Held)>, key: Name, held: Held)
    requires ordered { IsAscending rows.old.items }
    requires room { vec_len rows.old < vec_capacity rows.old }
    ensures value { rows.new.items ≡ put key held rows.old.items }
    ensures ordered { IsAscending rows.new.items }
    ensures len { vec_len rows.new ≤ vec_len rows.old + 1 }
    ensures capacity { vec_capacity rows.old ≤ vec_capacity rows.new }
{
    match place_of(rows.as_slice(), &key) {
        Ok(place) => rows[place] = (key, held),
        Err(place) => {
            rows.insert(place, (key, held)).unwrap();
        }
    }
}

// Takes the key away.
fn delete_row(rows: &mut Vec<(Name, Held)>, key: &Name)
    requires { IsAscending rows.old.items }
    ensures value { rows.new.items ≡ delete key.now rows.old.items }
    ensures ordered { IsAscending rows.new.items }
    ensures len { vec_len rows.new ≤ vec_len rows.old }
    ensures capacity { vec_capacity rows.old ≤ vec_capacity rows.new }
{
    if let Ok(place) = place_of(rows.as_slice(), key) {
        let _ = rows.remove(place);
    }
}

/// Gives the keys what was prepared for them. It takes no memory.
pub fn put_rows(rows: &mut Vec<(Name, Held)>, mut prepared: VecDeque<Prepared>)
    requires ordered { IsAscending rows.old.items }
    requires room { vec_len rows.old + deque_len prepared ≤ vec_capacity rows.old }
    ensures value { rows.new.items ≡ after_prepared prepared.items rows.old.items }
    ensures ordered { IsAscending rows.new.items }
{
    while let Some(Prepared { key, held }) = prepared.pop_front() {
        match held {
            Some(held) => put_row(rows, key, held),
            None => delete_row(rows, &key),
        }
    }
}

/// The entries of the table, copied, in its order.
pub fn copy_rows(alloc: Global, table: &IndexMap<Name, Held>) -> Result<Vec<(Name, Held)>, NoMemory>
    ensures value { IfOk result (λ rows. rows.items ≡ table.now.entries) }
    ensures unique { IsUnique same_key table.now }
{
    let mut rows = Vec::with_capacity(alloc, table.len())?;
    for place in 0..table.len() {
        let (key, held) = table.get_index(place).unwrap();
        let row = (key.copy()?, held.copy()?);
        rows.push(row)?;
    }
    Ok(rows)
}

/// Sorts the rows by their keys. It takes no memory.
pub fn sort_rows(rows: &mut Vec<(Name, Held)>)
    ensures permutation { IsPermutation rows.old.items rows.new.items }
    ensures sorted { IsSortedBy is_less rows.new.items }
{
    rows.sort_unstable_by(|a, b| a.0.cmp(&b.0));
}
