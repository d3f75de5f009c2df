ghost use Rattle.std.specs.Prelude.{◌≡◌, ◌<◌, ◌++◌, ℕ, false, None, OnOk, IfOk, length, decimal, string_bytes};
ghost use Rattle.airy_math.specs.Obtained.{IsInRange};
ghost use Rattle.frac128.specs.Fraction.{fraction_text};
ghost use Rattle.json.specs.Print.{quoted};
ghost use Rattle.serde_json.specs.Written.{compact_text, items_text, comma_if};
ghost use Rattle.amp_plan.specs.Plans.{keys_of};
ghost use Rattle.amp_terms.specs.Tables.{first_without};
ghost use Rattle.airy_json.specs.Document.{cell_data, cells_data, document_text, indices_data, value_in, values_in};
ghost use Rattle.airy_json.specs.Written.{ReadsBack};

use airy_index::Key;
use amp_plan::Plan;
use amp_terms::{NoMemory, Table};
use frac128::Frac;
use itoa::Buffer;
use serde_json::Value;
use std::alloc::Global;

/// Puts a number at the end of a text, in decimal.
fn put_number(text: &mut String, n: u8) -> Result<(), NoMemory>
    ensures { OnOk result (string_bytes text.new ≡ string_bytes text.old ++ decimal n) }
{
    let mut buffer = Buffer::new();
    text.push_str(buffer.format(n))
}

/// Puts a comma at the end of a text, where something stands before.
fn put_comma(text: &mut String, later: bool) -> Result<(), NoMemory>
    ensures { OnOk result (string_bytes text.new ≡ string_bytes text.old ++ comma_if later) }
{
    if later { text.push_str(",") } else { Ok(()) }
}

/// Puts a value at the end of a text, as a JSON string, as `Frac::write_into` writes it.
fn put_value(text: &mut String, v: Frac) -> Result<(), NoMemory>
    ensures { OnOk result (string_bytes text.new ≡ string_bytes text.old ++ quoted (fraction_text v)) }
{
    v.range_fact();
    let mut room = [0u8; 84];
    let size = v.write_into(&mut room);
    let Ok(word) = str::from_utf8(&room[..size]) else {
        unreachable!()
    };
    text.push_str("\"")?;
    text.push_str(word)?;
    text.push_str("\"")
}

/// Puts a JSON string at the end of a text, with its quotes and escapes.
fn put_string(alloc: Global, text: &mut String, s: &str) -> Result<(), NoMemory>
    ensures { OnOk result (string_bytes text.new ≡ string_bytes text.old ++ quoted s.now) }
{
    let word = Value::try_from_str(alloc, s)?.to_string(alloc)?;
    text.push_str(word.as_str())
}

/// Puts the items of an array of indices at the end of a text, with the closing bracket.
fn put_indices(text: &mut String, idx: &[u8]) -> Result<(), NoMemory>
    ensures { OnOk result (string_bytes text.new ≡ string_bytes text.old ++ items_text false (indices_data idx.now)) }
{
    for (place, i) in idx.iter().enumerate() {
        put_comma(text, place > 0)?;
        put_number(text, *i)?;
    }
    text.push_str("]")
}

/// Puts the cell of a key with its value at the end of a text.
fn put_cell(text: &mut String, key: &Key, v: Frac) -> Result<(), NoMemory>
    ensures { OnOk result (string_bytes text.new ≡ string_bytes text.old ++ compact_text (cell_data key.now v)) }
{
    text.push_str("{\"g\":")?;
    put_number(text, key.g())?;
    text.push_str(",\"i\":[")?;
    put_indices(text, key.idx())?;
    text.push_str(",\"v\":")?;
    put_value(text, v)?;
    text.push_str("}")
}

/// The Value of a rank in a table of Values.
fn value_of_rank(table: &Table, rank: u32) -> Frac
    requires values { first_without table.now ≡ None }
    requires rank { rank < length table.now }
    ensures { result ≡ value_in table.now rank }
{
    table.value(rank).unwrap()
}

/// Puts the items of the array of cells at the end of a text, with the closing bracket.
fn put_cells(text: &mut String, plan: &Plan, table: &Table) -> Result<(), NoMemory>
    requires long { length table.now ≡ length (keys_of plan.now) }
    requires values { first_without table.now ≡ None }
    ensures text { OnOk result (string_bytes text.new
        ≡ string_bytes text.old ++ items_text false (cells_data (keys_of plan.now) (values_in table.now))) }
    ensures range { OnOk result ((r : ℕ) → r < length table.now → IsInRange (value_in table.now r)) }
{
    for rank in 0..plan.len() {
        let value = value_of_rank(table, rank);
        value.range_fact();
        put_comma(text, rank > 0)?;
        put_cell(text, &plan.key(rank), value)?;
    }
    text.push_str("]")
}

/// The JSON document of a table: its bound, one cell for each planned key in plan order, and its kind, as compact as JSON is,
/// then a line feed. The table has the plan's length and a Value at every rank. `kind` is the name of the plan's structure or
/// the canonical text of its tensors. Where it says this plan's kind, the document is read as that kind, the bound and the
/// table's Values, unless it is too long. Of the memory that is taken, only the text's own grows with the table.
pub fn table_json(alloc: Global, kind: &str, plan: &Plan, table: &Table) -> Result<String, NoMemory>
    requires long { length table.now ≡ length (keys_of plan.now) }
    requires values { first_without table.now ≡ None }
    ensures text { IfOk result (λ s. string_bytes s ≡ document_text kind.now plan.now.bound (keys_of plan.now) (values_in table.now)) }
    ensures read_back { IfOk result (λ s. ReadsBack kind.now plan.now (values_in table.now) (string_bytes s)) }
{
    plan.limits_fact();
    plan.planned_fact();
    plan.tensors().soundness_fact();
    airy_math::below_dim();
    amp_plan::same_limits();
    let mut text = String::new(alloc);
    text.push_str("{\"bound\":")?;
    put_number(&mut text, plan.bound())?;
    text.push_str(",\"cells\":[")?;
    put_cells(&mut text, plan, table)?;
    text.push_str(",\"kind\":")?;
    put_string(alloc, &mut text, kind)?;
    text.push_str("}\n")?;
    Ok(text)
}
