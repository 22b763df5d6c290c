// A bundle with units, and the plain bundle that it comes to.
ghost use Rattle.std.specs.Prelude.{◌≡◌, ◌≤◌, ◌++◌, ℕ, Ok, Err, true, IfOk, IfErr, IsErrOf, MatchBool, MatchResult, length};
ghost use Rattle.std.specs.Str.{IsUtf8};
ghost use Rattle.office_base.specs.Limits.{most_bundle_bytes};
ghost use Rattle.office_base.specs.Outside.{Fails, IsAtEnd, Rose, Took};
ghost use Rattle.section_rows.specs.Rows.{rows_of};
ghost use Rattle.season_file.specs.Bundle.{bundle_of};
ghost use Rattle.quota_units.specs.Expansion.{GaveText, IsExpansion, IsFaultOf, IsUnitFault, IsUnread};
ghost use Rattle.quota_units.specs.Homes.{AreAlike, Homes, states_of, units_of};
ghost use Rattle.quota_units.specs.Input.{expanded, expansion, with_row, with_units};
ghost use Rattle.quota_units.specs.declared.fault.UnitFault.TheVariants.{BadState, BadUnit};

use crate::fault::UnitFault;
use crate::head::split_input;
use crate::homes::{HomeTable, read_homes};
use crate::keys::Keys;
use crate::mapping::Tables;
use crate::writer::write_rows;
use office_base::limits::MOST_BUNDLE_BYTES;
use office_base::{OutOfMemory, ReadFault, Source, Text, read_whole};
use office_text::skip_mark;
use season_file::{Pieces, split_with_requests};
use std::alloc::Global;

/// The bytes that a source gives up to its end.
fn read_bytes<S: Source>(alloc: Global, source: &mut S) -> Result<Text, UnitFault>
    ensures taken { IfOk result (λ bytes. Took bytes (S.left source.old) (S.left source.new)) }
    ensures ended { IfOk result (λ bytes. IsAtEnd (S.left source.new)) }
    ensures short { IfOk result (λ bytes. length bytes ≤ most_bundle_bytes) }
    ensures fault { IfErr result (λ fault. IsUnread (S.left source.old) (S.left source.new) fault) }
    ensures blamed { Fails (IsErrOf result UnitFault.ReadFault)
        (S.faults source.old) (S.faults source.new) }
{
    match read_whole(alloc, source, MOST_BUNDLE_BYTES) {
        Ok(bytes) => Ok(bytes),
        Err(ReadFault::Failed) => Err(UnitFault::ReadFault),
        Err(ReadFault::TooLong) => Err(UnitFault::TooLong),
        Err(ReadFault::OutOfMemory) => Err(UnitFault::OutOfMemory),
    }
}

/// The divided programmes of a body, or the first row that gives none.
fn read_units(alloc: Global, body: &[u8]) -> Result<HomeTable, UnitFault>
    ensures value { IfOk result (λ table. (homes : Homes)
        × (with_row BadUnit (units_of (rows_of body.now)) ≡ Ok homes) × AreAlike homes table) }
    ensures fault { IfErr result (λ fault.
        IsFaultOf (with_row BadUnit (units_of (rows_of body.now))) fault) }
{
    match read_homes(alloc, body, Keys::Units) {
        Ok(Ok(table)) => Ok(table),
        Ok(Err(row)) => Err(UnitFault::BadUnit { row }),
        Err(OutOfMemory) => Err(UnitFault::OutOfMemory),
    }
}

/// The states of a body, or the first row that gives none.
fn read_states(alloc: Global, body: &[u8]) -> Result<HomeTable, UnitFault>
    ensures value { IfOk result (λ table. (homes : Homes)
        × (with_row BadState (states_of (rows_of body.now)) ≡ Ok homes) × AreAlike homes table) }
    ensures fault { IfErr result (λ fault.
        IsFaultOf (with_row BadState (states_of (rows_of body.now))) fault) }
{
    match read_homes(alloc, body, Keys::States) {
        Ok(Ok(table)) => Ok(table),
        Ok(Err(row)) => Err(UnitFault::BadState { row }),
        Err(OutOfMemory) => Err(UnitFault::OutOfMemory),
    }
}

/// The same bytes in a text of their own.
fn copied(alloc: Global, bytes: &[u8]) -> Result<Text, OutOfMemory>
    ensures { IfOk result (λ text. text ≡ bytes.now) }
{
    Ok(Text::from_vec(Vec::from_slice(alloc, bytes)?))
}

/// Whether bytes are UTF-8.
fn is_text(bytes: &[u8]) -> bool
    ensures { MatchBool result (IsUtf8 bytes.now) (IsUtf8 bytes.now → ⊥) }
{
    match std::str::from_utf8(bytes) {
        Ok(_) => true,
        Err(_) => false,
    }
}

/// Returns the text, which is UTF-8. What is written from UTF-8 is UTF-8, so the error is never returned here.
fn checked(text: Text) -> Result<Text, OutOfMemory>
    ensures { IfOk result (λ checked. (checked ≡ text) × IsUtf8 text) }
{
    match std::str::from_utf8(text.as_slice()) {
        Ok(_) => Ok(text),
        Err(_) => Err(OutOfMemory),
    }
}

/// A bundle that is cut so, with units in its choices, or the first fault of a row of them.
fn write_bundle(
    alloc: Global,
    tables: Tables<'_>,
    bundle: &[u8],
    cut: Pieces<'_>,
) -> Result<Text, UnitFault>
    requires { bundle_of true bundle.now
        ≡ Ok (record {
          version = cut.version;
          season = cut.season.now;
          register = cut.register.now;
          matrix = cut.matrix.now;
          choices = cut.choices.now;
          requests = cut.requests.now;
        }) }
    ensures value { IfOk result (λ text. (with_units tables.entry.units.now tables.entry.states.now
        bundle.now (bundle_of true bundle.now) ≡ Ok text) × IsUtf8 text) }
    ensures fault { IfErr result (λ fault. IsFaultOf (with_units tables.entry.units.now
        tables.entry.states.now bundle.now (bundle_of true bundle.now)) fault) }
{
    let end = bundle
        .len()
        .saturating_sub(cut.requests.len())
        .saturating_sub(cut.choices.len());
    let Ok(front) = Vec::from_slice(alloc, &bundle[..end]) else {
        return Err(UnitFault::OutOfMemory);
    };
    let mut text = Text::from_vec(write_rows(alloc, front, tables, cut.choices)?);
    text.extend_from_slice(cut.requests)?;
    Ok(checked(text)?)
}

/// The plain bundle that a bundle with units comes to, or the first fault of its choices. A bundle that is none stays.
fn expand_bundle(alloc: Global, tables: Tables<'_>, bundle: &[u8]) -> Result<Text, UnitFault>
    requires { length bundle.now ≤ most_bundle_bytes }
    ensures value { IfOk result (λ text. (expanded tables.entry.units.now tables.entry.states.now
        bundle.now ≡ Ok text) × (IsUtf8 bundle.now → IsUtf8 text)) }
    ensures fault { IfErr result (λ fault.
        IsFaultOf (expanded tables.entry.units.now tables.entry.states.now bundle.now) fault) }
{
    if !is_text(bundle) {
        return Ok(copied(alloc, bundle)?);
    }
    match split_with_requests(bundle) {
        Ok(cut) => write_bundle(alloc, tables, bundle, cut),
        Err(_) => Ok(copied(alloc, bundle)?),
    }
}

/// The plain bundle that bytes come to, or their first fault.
fn expand_bytes(alloc: Global, bytes: &[u8]) -> Result<Text, UnitFault>
    requires { length bytes.now ≤ most_bundle_bytes }
    ensures value { IfOk result (λ text. IsExpansion bytes.now text) }
    ensures fault { IfErr result (λ fault. IsFaultOf (expansion bytes.now) fault) }
{
    let input = split_input(skip_mark(bytes))?;
    let units = read_units(alloc, input.units)?;
    let states = read_states(alloc, input.states)?;
    let tables = Tables {
        units: &units,
        states: &states,
    };
    crate::laws::reads_mapped();
    crate::laws::live_right();
    expand_bundle(alloc, tables, input.bundle)
}

/// The plain bundle that the bytes of a source with units come to, or their first fault: `units STORE` runs it as `run STORE` does.
pub fn expand<S: Source>(alloc: Global, source: &mut S) -> Result<Text, UnitFault>
    ensures text { IfOk result (λ text. GaveText (S.left source.old) (S.left source.new) text) }
    ensures fault { IfErr result (λ fault.
        IsUnitFault (S.left source.old) (S.left source.new) fault) }
    ensures cause { IsErrOf result UnitFault.ReadFault
        → Rose (S.faults source.old) (S.faults source.new) }
    ensures count { S.faults source.old ≤ S.faults source.new }
    ensures steady { ¬ IsErrOf result UnitFault.ReadFault
        → S.faults source.new ≡ S.faults source.old }
{
    let bytes = read_bytes(alloc, source)?;
    match expand_bytes(alloc, bytes.as_slice()) {
        Ok(text) => Ok(text),
        Err(fault) => Err(fault),
    }
}
