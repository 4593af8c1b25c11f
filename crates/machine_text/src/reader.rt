//! From the text of a file to its machine.

ghost use Rattle.std.specs.Prelude.{◌≡◌, ◌≢◌, IfOk, IfErr};
ghost use Rattle.toml.specs.View.{table_view};
ghost use Rattle.machine_text.specs.declared.fault.TextFault.TheVariants as fault;
ghost use Rattle.machine_text.specs.Machine.{IsTableOf, IsMachineOf, IsRefusalOf, text_fault_of};

use crate::fault::TextFault;
use crate::parts::parts;
use qccd_machine::{Machine, MachineFault};
use std::alloc::Global;
use toml::Table;

/// The machine that the text of a machine's file describes, or the first reason why it describes
/// none.
///
/// The text is a TOML document (<https://toml.io>, version 1.1, as the crate `toml` reads it) with
/// these fields and no others:
///
/// - `junctions`, how many there are, and none where it is absent;
/// - `trap`, an array of tables with `capacity` each;
/// - `segment`, an array of tables with `a` and `b` each, the places of its ends (`T0.left`,
///   `T0.right` or `J0`), and none where it is absent;
/// - `time`, a table with a time in microseconds for any of the fields of `Times`, where `shift` is
///   called `move`; the usual time where one is absent.
///
/// What is refused is told in this order: a text that is no TOML; an unknown field of the document;
/// `junctions`; `trap`, and for each trap its unknown field and its capacity; `segment`, and for
/// each segment its unknown field, `a` and `b`; `time`, its unknown field, and its fields in the
/// order of `Times`; and last what `Machine::build` refuses.
///
/// Memory is taken for the parts that the text lists, and not by the numbers that it names. That it ran
/// out says nothing of the text.
pub fn read_machine(alloc: Global, text: &[u8]) -> Result<Machine, TextFault>
    ensures machine { IfOk result (IsMachineOf text.now) }
    ensures refused { IfErr result (λ e. e ≢ fault.NoMemory → IsRefusalOf text.now e) }
{
    let table = table_of(alloc, text)?;
    let parts = parts(alloc, &table)?;
    Machine::build(alloc, parts).map_err(fault_of)
}

/// The table of a text that is TOML.
fn table_of(alloc: Global, text: &[u8]) -> Result<Table, TextFault>
    ensures table { IfOk result (λ t. IsTableOf text.now (table_view t)) }
    ensures refused { IfErr result
        (λ e. e ≢ fault.NoMemory → (e ≡ fault.NotToml) × IsRefusalOf text.now e) }
{
    match toml::table_from_slice(alloc, text) {
        Ok(table) => Ok(table),
        Err(e) if e.is_memory() => Err(TextFault::NoMemory),
        Err(_) => Err(TextFault::NotToml),
    }
}

/// A fault of the parts as one of the text.
fn fault_of(fault: MachineFault) -> TextFault
    ensures { result ≡ text_fault_of fault }
{
    match fault {
        MachineFault::NoMemory => TextFault::NoMemory,
        other => TextFault::Machine(other),
    }
}
