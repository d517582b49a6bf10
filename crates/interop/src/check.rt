// The check of rows against the source, which tells the first fault.
ghost use Rattle.std.specs.Prelude.{◌≡◌, ℕ};
ghost use Rattle.std.specs.Fn.{FnReturnsAt};
ghost use Rattle.faults.specs.Faults.{each};
ghost use Rattle.interop.specs.Checks.{module_verdict};

use faults::{Fault, Layer, Refusal};
use source::ModuleSource;

fn check_module<S: ModuleSource>(source: &S, row: usize, m: u32) -> Result<(), Fault>
    ensures { result ≡ module_verdict (S.meaning source.now) row m }
{
    if m as usize >= source.module_count() {
        return Err(Refusal::RowPastSource.found_by(Layer::Interop, row, 0));
    }
    Ok(())
}

/// Each row names a module of the source: the first that does not is the fault.
pub fn check_each<S: ModuleSource, Row, F: Fn(&Row) -> u32>(
    source: &S,
    rows: &[Row],
    named: F,
) -> Result<(), Fault>
    requires { F.IsAlwaysCallable named }
    ensures { (of : Row → ℕ) → ((row : Row) (m : ℕ) → FnReturnsAt F.Fn named row m → m ≡ of row) → result ≡ each (λ i row. module_verdict (S.meaning source.now) i (of row)) 0 rows.now }
{
    for (i, row) in rows.iter().enumerate() {
        check_module(source, i, named(row))?;
    }
    Ok(())
}
