// The check of rows, which tells the first fault.
ghost use Rattle.std.specs.Prelude.{◌≡◌, ◌≤◌, not, length, Ok, Err, MatchResult};
ghost use Rattle.faults.specs.Faults.{each};
ghost use Rattle.row_source.specs.Checks.{blank, targeted, row_fault, total, module_row_verdict, record_row_verdict, rows_verdict};

use crate::rows::ModuleRow;
use faults::{Fault, Layer, Refusal};
use source::{ImportRecord, MODULE_LIMIT, Module, RECORD_LIMIT};

fn refused(refusal: Refusal, at: usize) -> Fault
    ensures { result ≡ row_fault refusal at }
{
    refusal.found_by(Layer::Source, at, 0)
}

fn is_blank(row: &ModuleRow) -> bool
    ensures { result ≡ blank row.now.described row.now.count }
{
    matches!(row.described, Module::Normal(_)) || row.count == 0
}

fn is_targeted(row: &ImportRecord) -> bool
    ensures { result ≡ targeted row.now.target }
{
    row.target.is_none_or(|target| target < u32::MAX)
}

// Every module row in turn; the answer is how many record rows they count.
fn check_module_rows(modules: &[ModuleRow]) -> Result<usize, Fault>
    requires { length modules.now ≤ 4096 }
    ensures { MatchResult result (λ n. (each (module_row_verdict modules.now) 0 modules.now ≡ Ok tt) × (n ≡ total modules.now)) (λ f. each (module_row_verdict modules.now) 0 modules.now ≡ Err f) }
{
    let mut next: usize = 0;
    for (m, row) in modules.iter().enumerate() {
        if !is_blank(row) {
            return Err(refused(Refusal::FieldOutOfValues, m));
        }
        if row.first as usize != next {
            return Err(refused(Refusal::WrongFirstRecord, m));
        }
        next += row.count as usize;
    }
    Ok(next)
}

fn check_record_rows(records: &[ImportRecord]) -> Result<(), Fault>
    ensures { result ≡ each record_row_verdict 0 records.now }
{
    match records.iter().position(|row| !is_targeted(row)) {
        Some(i) => Err(refused(Refusal::FieldOutOfValues, i)),
        None => Ok(()),
    }
}

/// Whether the rows make a source: the first fault where they do not.
pub fn check_rows(modules: &[ModuleRow], records: &[ImportRecord]) -> Result<(), Fault>
    ensures { result ≡ rows_verdict modules.now records.now }
{
    if modules.len() > MODULE_LIMIT {
        return Err(refused(Refusal::TooManyModules, 0));
    }
    if records.len() > RECORD_LIMIT {
        return Err(refused(Refusal::TooManyRecords, 0));
    }
    let counted = check_module_rows(modules)?;
    check_record_rows(records)?;
    if counted != records.len() {
        return Err(refused(Refusal::WrongFirstRecord, modules.len()));
    }
    Ok(())
}
