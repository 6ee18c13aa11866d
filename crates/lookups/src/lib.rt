// Looking a name up on a sheet: its place, its words, and the fault.
#![tactic(auto)]

ghost use Rattle.std.specs.Prelude.{◌≡◌};
ghost use Rattle.format.specs.Calls.{place_of, place_judged, lookup_fault};
ghost use Rattle.lookups.specs.LookedUp.{LookedUp};

use format::Place;

// Where the words of the signal with this name stand on a sheet that is judged already, as `locate` says of an accepted one; on any other,
// where they stand among its whole signals.
pub fn locate_judged(sheet: &[u8], name: &[u8]) -> Place
    ensures { result ≡ place_judged sheet.now name.now }
{
    let count = slices::read16(sheet, sheets::COUNT_AT);
    match finding::find(sheet, count, name) {
        place @ Place::At { .. } => place,
        Place::Refused(_) => Place::Refused(if names::well_named(name) { 13 } else { 16 }),
    }
}

// Where the words of the signal with this name stand on a sheet; refused with the sheet's fault, 16 or 13.
pub fn locate(sheet: &[u8], name: &[u8]) -> Place
    ensures { result ≡ place_of sheet.now name.now }
{
    match sheets::sheet_fault(sheet) {
        0 => locate_judged(sheet, name),
        fault => Place::Refused(fault),
    }
}

// The part of the sheet that is the words of the signal with this name, empty when refused.
pub fn lookup<'a>(sheet: &'a [u8], name: &[u8]) -> &'a [u8]
    ensures { LookedUp sheet.entry name.now result }
{
    match locate(sheet, name) {
        Place::At { start, count } => &sheet[start..start + count],
        Place::Refused(_) => &sheet[..0],
    }
}

// The fault of a lookup, 0 when found.
pub fn lookup_fault(sheet: &[u8], name: &[u8]) -> u32
    ensures { result ≡ lookup_fault sheet.now name.now }
{
    match locate(sheet, name) {
        Place::At { .. } => 0,
        Place::Refused(fault) => fault,
    }
}
