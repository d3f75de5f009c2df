ghost use Rattle.std.specs.Prelude.{◌≡◌, ◌≤◌, length, IfOk, IfErr};
ghost use Rattle.serde_json.specs.View.{view, items_view};
ghost use Rattle.airy_json.specs.Reading.{is_whole, are_indices, is_cell_of, cell_value, first_bad};
ghost use Rattle.airy_json.specs.Steps.{AreCells, IsBadCell};

use crate::forms::{array_at, has_three, string_at, whole_at};
use crate::refusals::JsonErr;
use airy_index::Key;
use frac128::Frac;
use serde_json::Value;
use std::alloc::Global;
use tensor_text::read_value;

/// Whether a whole number is there and is this one.
#[tactic(auto, unfolding(crate::specs::Reading::is_whole))]
fn is_whole(number: u8, found: Option<u64>) -> bool
    ensures { result ≡ is_whole number found }
{
    match found {
        Some(n) => n == u64::from(number),
        None => false,
    }
}

/// Whether these items are the indices, in order, written in digits alone.
fn are_indices(indices: &[u8], items: &Vec<Value>) -> bool
    ensures { result ≡ are_indices indices.now (items_view items.now.items) }
{
    if items.len() != indices.len() {
        return false;
    }
    for place in 0..indices.len() {
        if !is_whole(indices[place], items[place].as_u64()) {
            return false;
        }
    }
    true
}

/// Whether this is an object with exactly the members g, i and v, of which g and i are the key's genus and indices.
#[tactic(auto, unfolding(crate::specs::Reading::is_cell_of, crate::specs::Reading::are_indices_at))]
fn is_cell_of(key: &Key, cell: &Value) -> bool
    ensures { result ≡ is_cell_of key.now (view cell.now) }
{
    if !has_three(cell) || !is_whole(key.g(), whole_at(cell, "g")) {
        return false;
    }
    match array_at(cell, "i") {
        Some(items) => are_indices(key.idx(), items),
        None => false,
    }
}

/// The value of the key's cell.
#[tactic(auto, unfolding(crate::specs::Reading::cell_value))]
fn read_cell(key: &Key, cell: &Value) -> Option<Frac>
    ensures { result ≡ cell_value key.now (view cell.now) }
{
    if !is_cell_of(key, cell) {
        return None;
    }
    read_value(string_at(cell, "v")?.as_bytes())
}

/// The values of the keys' cells, in order, of at most 200,000 keys; or the first place at which the cells aren't the keys'.
pub(crate) fn read_cells(
    alloc: Global,
    keys: &[Key],
    cells: &Vec<Value>,
) -> Result<Vec<Frac>, JsonErr>
    requires { length keys.now ≤ 200000 }
    ensures cells { IfOk result (λ values. AreCells keys.now (items_view cells.now.items) values.items) }
    ensures cause { IfErr result (λ e. IsBadCell e (first_bad keys.now (items_view cells.now.items))) }
{
    let mut values = Vec::new(alloc);
    for place in 0..keys.len() {
        let refused = JsonErr::Cell {
            place: place as u32,
        };
        if place == cells.len() {
            return Err(refused);
        }
        let Some(value) = read_cell(&keys[place], &cells[place]) else {
            return Err(refused);
        };
        values.push(value).map_err(|_| JsonErr::NoMemory)?;
    }
    if cells.len() > keys.len() {
        return Err(JsonErr::Cell {
            place: keys.len() as u32,
        });
    }
    Ok(values)
}
