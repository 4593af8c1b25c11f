//! The fields of a table, and the forms of their values.

ghost use Rattle.std.specs.Prelude.{◌≡◌, ◌≢◌, None, Some, option_map, IfOk, OnOk, IfErr};
ghost use Rattle.toml.specs.Data.{get_member};
ghost use Rattle.toml.specs.View.{view, table_view};
ghost use Rattle.machine_text.specs.declared.fault.TextFault.TheVariants as fault;
ghost use Rattle.qccd_base.specs.FirstFailing.{NoneFails, IsFirstFailing};
ghost use Rattle.machine_text.specs.Checks.{known_checks};
ghost use Rattle.machine_text.specs.Texts.{texts_of, tables_of};
ghost use Rattle.machine_text.specs.Field.{has_only, whole_number, time_number, place_in, tables_in};
ghost use Rattle.std.specs.List.{list_any};
ghost use Rattle.std.specs.Str.{bytes_eq};

use crate::fault::{Spot, TextFault};
use crate::place::place_named;
use qccd_machine::Place;
use std::alloc::{AllocError, Global};
use toml::{Table, Value};

/// Whether each field of the table has one of these names.
fn has_only(table: &Table, names: &[&str]) -> bool
    ensures { result ≡ has_only (texts_of names.now) (table_view table.now) }
{
    table.keys().all(|name| is_among(name.as_str(), names))
}

/// Whether the name is one of these.
fn is_among(name: &str, names: &[&str]) -> bool
    ensures { result ≡ list_any (bytes_eq name.now) (texts_of names.now) }
{
    names.iter().any(|other| name == *other)
}

/// That each field of the table has one of these names.
pub(crate) fn known_fields(table: &Table, names: &[&str], spot: Spot) -> Result<(), TextFault>
    ensures ok { OnOk result (NoneFails
        (known_checks spot (texts_of names.now) (table_view table.now))) }
    ensures refused { IfErr result (IsFirstFailing
        (known_checks spot (texts_of names.now) (table_view table.now))) }
{
    if has_only(table, names) {
        Ok(())
    } else {
        Err(TextFault::UnknownField { spot })
    }
}

/// The value of the field, where the table has it.
pub(crate) fn field<'a>(table: &'a Table, name: &str) -> Option<&'a Value>
    ensures { option_map (λ value. view value.now) result
        ≡ get_member name.now (table_view table.now) }
{
    table.get(name)
}

/// The value of a field that has to be there.
pub(crate) fn required<'a>(table: &'a Table, name: &str, spot: Spot) -> Result<&'a Value, TextFault>
    ensures ok { IfOk result (λ value.
        get_member name.now (table_view table.now) ≡ Some (view value.now)) }
    ensures missing { IfErr result (λ e. (e ≡ fault.MissingField spot)
        × (get_member name.now (table_view table.now) ≡ None)) }
{
    field(table, name).ok_or(TextFault::MissingField { spot })
}

/// The number of a value that is a whole number from 0.
pub(crate) fn whole_number(value: &Value) -> Option<u64>
    ensures { result ≡ whole_number (view value.now) }
{
    u64::try_from(value.as_integer()?).ok()
}

/// The number of a value that is a whole number from 0 to 4,294,967,295.
pub(crate) fn time_number(value: &Value) -> Option<u32>
    ensures { result ≡ time_number (view value.now) }
{
    u32::try_from(whole_number(value)?).ok()
}

/// The place of a value that is the text of one.
pub(crate) fn place(value: &Value) -> Option<Place>
    ensures { result ≡ place_in (view value.now) }
{
    place_named(value.as_str()?.as_bytes())
}

/// The tables of a value that is an array of tables.
pub(crate) fn tables<'a>(
    alloc: Global,
    value: &'a Value,
) -> Result<Option<Vec<&'a Table>>, AllocError>
    ensures { IfOk result (λ found. option_map (λ rows. tables_of rows.items) found
        ≡ tables_in (view value.now)) }
{
    let Some(items) = value.as_array() else {
        return Ok(None);
    };
    let mut tables = Vec::new(alloc);
    for item in items {
        let Some(table) = item.as_table() else {
            return Ok(None);
        };
        tables.push(table)?;
    }
    Ok(Some(tables))
}
