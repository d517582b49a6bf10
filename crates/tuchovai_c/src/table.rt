// Marks and rows as one table of bytes.
ghost use Rattle.std.specs.Prelude.{◌≡◌, ◌^◌, ◌<◌, ◌≤◌, ◌++◌, map, length, IfOk, OnOk};
ghost use Rattle.std.specs.List.{concat};
ghost use Rattle.tuchovai_c.specs.Tables.{table_bytes};

use crate::rows::{TableRow, bytes_of_head};
use marks::{AwaitRow, MarkRow, WrapperRow};
use std::alloc::{AllocError, Global};

fn put_rows<const N: usize, R: TableRow<N>>(
    bytes: &mut Vec<u8>,
    rows: &[R],
) -> Result<(), AllocError>
    requires { N < 2 ^ 63 }
    ensures { OnOk result (bytes.new.items ≡ bytes.old.items ++ concat (map R.row_bytes rows.now)) }
{
    for row in rows {
        bytes.extend_from_slice(&row.to_bytes())?;
    }
    Ok(())
}

/// The table of these rows.
pub fn table_of(
    heap: Global,
    marks: &[MarkRow],
    awaits: &[AwaitRow],
    wrappers: &[WrapperRow],
) -> Result<Vec<u8>, AllocError>
    requires marks { length marks.now ≤ 4096 }
    requires awaits { length awaits.now ≤ 32768 }
    requires wrappers { length wrappers.now ≤ 4096 }
    ensures { IfOk result (λ v. v.items ≡ table_bytes marks.now awaits.now wrappers.now) }
{
    let size = 16 + 16 * marks.len() + 28 * awaits.len() + 8 * wrappers.len();
    let mut bytes = Vec::with_capacity(heap, size)?;
    let head = bytes_of_head(
        marks.len() as u32,
        awaits.len() as u32,
        wrappers.len() as u32,
        size as u32,
    );
    bytes.extend_from_slice(&head)?;
    put_rows(&mut bytes, marks)?;
    put_rows(&mut bytes, awaits)?;
    put_rows(&mut bytes, wrappers)?;
    Ok(bytes)
}
