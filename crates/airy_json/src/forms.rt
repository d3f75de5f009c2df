ghost use Rattle.std.specs.Prelude.{◌≡◌, option_map};
ghost use Rattle.serde_json.specs.Find.{as_object};
ghost use Rattle.serde_json.specs.View.{view, items_view};
ghost use Rattle.airy_json.specs.Reading.{three, whole_at, array_at, string_at, form_of};
ghost use Rattle.airy_json.specs.Steps.{form_seen};

use serde_json::Value;

/// What stands in a document.
#[derive(Clone, Copy)]
pub(crate) struct Form<'a> {
    pub bound: u64,
    pub cells: &'a Vec<Value>,
    pub kind: &'a str,
}

/// Whether this is an object of three members.
#[tactic(auto, using(crate::proofs::FormLemmas::count_is), unfolding(crate::specs::Reading::three))]
pub(crate) fn has_three(value: &Value) -> bool
    ensures { result ≡ three (as_object (view value.now)) }
{
    match value.as_object() {
        Some(members) => members.len() == 3,
        None => false,
    }
}

/// The whole number, written in digits alone, at a name.
#[tactic(auto, unfolding(crate::specs::Reading::whole_at, crate::specs::Reading::whole))]
pub(crate) fn whole_at(value: &Value, name: &str) -> Option<u64>
    ensures { result ≡ whole_at name.now (view value.now) }
{
    value.get(name)?.as_u64()
}

/// The array at a name.
#[tactic(auto, unfolding(crate::specs::Reading::array_at))]
pub(crate) fn array_at<'a>(value: &'a Value, name: &str) -> Option<&'a Vec<Value>>
    ensures { option_map (λ v. items_view v.now.items) result ≡ array_at name.now (view value.now) }
{
    value.get(name)?.as_array()
}

/// The string at a name.
#[tactic(auto, unfolding(crate::specs::Reading::string_at))]
pub(crate) fn string_at<'a>(value: &'a Value, name: &str) -> Option<&'a str>
    ensures { option_map (λ s. s.now) result ≡ string_at name.now (view value.now) }
{
    value.get(name)?.as_str()
}

/// What stands in a document, where it has the form of one.
#[tactic(auto, unfolding(crate::specs::Reading::form_of, crate::specs::Reading::form_with))]
pub(crate) fn read_form(value: &Value) -> Option<Form<'_>>
    ensures { option_map form_seen result ≡ form_of (view value.now) }
{
    if !has_three(value) {
        return None;
    }
    let bound = whole_at(value, "bound")?;
    let cells = array_at(value, "cells")?;
    let kind = string_at(value, "kind")?;
    Some(Form { bound, cells, kind })
}
