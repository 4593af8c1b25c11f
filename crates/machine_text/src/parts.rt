//! The parts of a machine that the table of its file describes.

ghost use Rattle.std.specs.Prelude.{◌≡◌, map, IfOk, OnOk, IfErr};
ghost use Rattle.toml.specs.View.{table_view};
ghost use Rattle.qccd_base.specs.FirstFailing.{NoneFails, IsFirstFailing};
ghost use Rattle.machine_text.specs.Checks.{IsFirstOrNoMemory, required_checks, row_checks, capacity_in, trap_checks, trap_rows, all_trap_checks, ends_in, segment_checks, segment_rows, all_segment_checks, time_in, time_check, time_table, time_table_checks, all_time_checks, junctions_in, junction_checks, document_checks};
ghost use Rattle.machine_text.specs.Field.{found, given, given_or, place_in};
ghost use Rattle.machine_text.specs.Machine.{given_ends, described_times, Describes};
ghost use Rattle.qccd_machine.specs.Fault.{data_of};
ghost use Rattle.machine_text.specs.Texts.{tables_of};

use crate::fault::{Part, Spot, TextFault};
use crate::field::{field, known_fields, place, required, tables, time_number, whole_number};
use qccd_base::Times;
use qccd_machine::{Parts, Place, TIME_NAMES, time_name};
use std::alloc::Global;
use toml::Table;

/// The capacity of the trap with this number, whose table this is.
fn trap(table: &Table, row: u64) -> Result<u64, TextFault>
    ensures passed { OnOk result (NoneFails (trap_checks row (table_view table.now))) }
    ensures capacity { IfOk result (λ n. capacity_in (table_view table.now) ≡ given n) }
    ensures refused { IfErr result (IsFirstFailing (trap_checks row (table_view table.now))) }
{
    known_fields(table, &["capacity"], Part::Trap.at(row))?;
    let spot = Part::Capacity.at(row);
    let value = required(table, "capacity", spot)?;
    whole_number(value).ok_or(TextFault::WrongValue { spot })
}

/// The place of an end of a segment, whose table this is.
fn end(table: &Table, name: &str, spot: Spot) -> Result<Place, TextFault>
    ensures place { IfOk result (λ p. found place_in name.now (table_view table.now) ≡ given p) }
    ensures refused { IfErr result (IsFirstFailing
        (required_checks spot (found place_in name.now (table_view table.now)))) }
{
    let value = required(table, name, spot)?;
    place(value).ok_or(TextFault::WrongValue { spot })
}

/// The ends of the segment with this number, whose table this is.
fn segment(table: &Table, row: u64) -> Result<(Place, Place), TextFault>
    ensures passed { OnOk result (NoneFails (segment_checks row (table_view table.now))) }
    ensures ends { IfOk result (λ p. ends_in (table_view table.now) ≡ given_ends p) }
    ensures refused { IfErr result (IsFirstFailing (segment_checks row (table_view table.now))) }
{
    known_fields(table, &["a", "b"], Part::Segment.at(row))?;
    let a = end(table, "a", Part::EndA.at(row))?;
    let b = end(table, "b", Part::EndB.at(row))?;
    Ok((a, b))
}

/// The time that the table gives for the field of `Times` at this place, or the usual one.
fn time(table: &Table, place: u8, usual: u32) -> Result<u32, TextFault>
    ensures passed { OnOk result (NoneFails (time_check (table_view table.now) place)) }
    ensures value { IfOk result (λ t. given_or usual (time_in place (table_view table.now)) ≡ t) }
    ensures refused { IfErr result (IsFirstFailing (time_check (table_view table.now) place)) }
{
    let spot = Part::TimeField(place).at(0);
    match field(table, time_name(place)) {
        Some(value) => time_number(value).ok_or(TextFault::WrongValue { spot }),
        None => Ok(usual),
    }
}

/// How many junctions there are.
fn junctions(table: &Table) -> Result<u64, TextFault>
    ensures passed { OnOk result (NoneFails (junction_checks (table_view table.now))) }
    ensures count { IfOk result (λ n. given_or 0 (junctions_in (table_view table.now)) ≡ n) }
    ensures refused { IfErr result (IsFirstFailing (junction_checks (table_view table.now))) }
{
    let spot = Part::Junctions.at(0);
    match field(table, "junctions") {
        Some(value) => whole_number(value).ok_or(TextFault::WrongValue { spot }),
        None => Ok(0),
    }
}

/// The capacities of the traps whose tables these are.
fn capacities(alloc: Global, rows: &[&Table]) -> Result<Vec<u64>, TextFault>
    ensures passed { OnOk result (NoneFails (row_checks trap_checks 0 (tables_of rows.now))) }
    ensures capacities { IfOk result
        (λ v. map capacity_in (tables_of rows.now) ≡ map given v.items) }
    ensures refused { IfErr result (IsFirstOrNoMemory (row_checks trap_checks 0 (tables_of rows.now))) }
{
    let mut capacities = Vec::new(alloc);
    for (row, table) in rows.iter().enumerate() {
        capacities.push(trap(table, row as u64)?)?;
    }
    Ok(capacities)
}

/// The ends of the segments whose tables these are.
fn ends(alloc: Global, rows: &[&Table]) -> Result<Vec<(Place, Place)>, TextFault>
    ensures passed { OnOk result (NoneFails (row_checks segment_checks 0 (tables_of rows.now))) }
    ensures ends { IfOk result (λ v. map ends_in (tables_of rows.now) ≡ map given_ends v.items) }
    ensures refused { IfErr result (IsFirstOrNoMemory (row_checks segment_checks 0 (tables_of rows.now))) }
{
    let mut ends = Vec::new(alloc);
    for (row, table) in rows.iter().enumerate() {
        ends.push(segment(table, row as u64)?)?;
    }
    Ok(ends)
}

/// The capacities of all traps.
fn traps(alloc: Global, table: &Table) -> Result<Vec<u64>, TextFault>
    ensures passed { OnOk result (NoneFails (all_trap_checks (table_view table.now))) }
    ensures capacities { IfOk result
        (λ v. map capacity_in (trap_rows (table_view table.now)) ≡ map given v.items) }
    ensures refused { IfErr result (IsFirstOrNoMemory (all_trap_checks (table_view table.now))) }
{
    let spot = Part::Trap.at(0);
    let value = required(table, "trap", spot)?;
    let rows = tables(alloc, value)?.ok_or(TextFault::WrongValue { spot })?;
    capacities(alloc, rows.as_slice())
}

/// The ends of all segments.
fn segments(alloc: Global, table: &Table) -> Result<Vec<(Place, Place)>, TextFault>
    ensures passed { OnOk result (NoneFails (all_segment_checks (table_view table.now))) }
    ensures ends { IfOk result
        (λ v. map ends_in (segment_rows (table_view table.now)) ≡ map given_ends v.items) }
    ensures refused { IfErr result (IsFirstOrNoMemory (all_segment_checks (table_view table.now))) }
{
    let spot = Part::Segment.at(0);
    let Some(value) = field(table, "segment") else {
        return Ok(Vec::new(alloc));
    };
    let rows = tables(alloc, value)?.ok_or(TextFault::WrongValue { spot })?;
    ends(alloc, rows.as_slice())
}

/// The times, where this is the table of those that are given.
fn given_times(table: &Table) -> Result<Times, TextFault>
    ensures passed { OnOk result (NoneFails (time_table_checks (table_view table.now))) }
    ensures times { IfOk result (λ t. described_times (table_view table.now) ≡ t) }
    ensures refused { IfErr result (IsFirstFailing (time_table_checks (table_view table.now))) }
{
    known_fields(table, &TIME_NAMES, Part::Time.at(0))?;
    let usual = Times::usual();
    Ok(Times {
        split: time(table, 0, usual.split)?,
        merge: time(table, 1, usual.merge)?,
        shift: time(table, 2, usual.shift)?,
        cross2: time(table, 3, usual.cross2)?,
        cross3: time(table, 4, usual.cross3)?,
        cross4: time(table, 5, usual.cross4)?,
        rot: time(table, 6, usual.rot)?,
        gate1: time(table, 7, usual.gate1)?,
        measure: time(table, 8, usual.measure)?,
        reset: time(table, 9, usual.reset)?,
        gate2: time(table, 10, usual.gate2)?,
        between: time(table, 11, usual.between)?,
    })
}

/// All times.
fn times(table: &Table) -> Result<Times, TextFault>
    ensures passed { OnOk result (NoneFails (all_time_checks (table_view table.now))) }
    ensures times { IfOk result (λ t. described_times (time_table (table_view table.now)) ≡ t) }
    ensures refused { IfErr result (IsFirstFailing (all_time_checks (table_view table.now))) }
{
    let spot = Part::Time.at(0);
    let Some(value) = field(table, "time") else {
        return Ok(Times::usual());
    };
    match value.as_table() {
        Some(given) => given_times(given),
        None => Err(TextFault::WrongValue { spot }),
    }
}

/// The parts that the table of a document describes.
pub(crate) fn parts(alloc: Global, table: &Table) -> Result<Parts, TextFault>
    ensures passed { OnOk result (NoneFails (document_checks (table_view table.now))) }
    ensures described { IfOk result (λ p. Describes (table_view table.now) (data_of p)) }
    ensures refused { IfErr result (IsFirstOrNoMemory (document_checks (table_view table.now))) }
{
    known_fields(
        table,
        &["junctions", "trap", "segment", "time"],
        Part::Top.at(0),
    )?;
    let junctions = junctions(table)?;
    let capacities = traps(alloc, table)?;
    let segments = segments(alloc, table)?;
    let times = times(table)?;
    Ok(Parts {
        capacities,
        junctions,
        segments,
        times,
    })
}
