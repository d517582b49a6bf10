// The bytes of one row.
ghost use Rattle.std.specs.Prelude.{◌≡◌, ℕ, List};
ghost use Rattle.tuchovai_c.specs.Tables.{mark_bytes, await_bytes, wrapper_bytes, head_bytes, table_length};

use crate::numbers::{number_of_helper, number_of_wrap};
use marks::{AwaitRow, MarkRow, WrapperRow};

/// A row that a table has as `N` bytes.
pub trait TableRow<const N: usize> {
    ghost row_bytes: { Self → List ℕ };

    fn to_bytes(&self) -> [u8; N]
        ensures { result ≡ row_bytes self.now };
}

impl TableRow<16> for MarkRow {
    ghost row_bytes = { mark_bytes };

    fn to_bytes(&self) -> [u8; 16] {
        let kind = u8::from(self.kind);
        let wrap = number_of_wrap(self.wrap);
        let required = u8::from(self.required);
        let dynamic = u8::from(self.dynamic);
        let awaiting = u8::from(self.awaiting);
        let [e0, e1, e2, e3, e4, e5, e6, e7] = self.entries.to_le_bytes();
        [
            kind, wrap, required, dynamic, awaiting, 0, 0, 0, e0, e1, e2, e3, e4, e5, e6, e7,
        ]
    }
}

impl TableRow<28> for AwaitRow {
    ghost row_bytes = { await_bytes };

    fn to_bytes(&self) -> [u8; 28] {
        let [i0, i1, i2, i3] = self.importer.to_le_bytes();
        let [r0, r1, r2, r3] = self.record.to_le_bytes();
        let [w0, w1, w2, w3] = self.source.to_le_bytes();
        let [s0, s1, s2, s3] = self.span.start.to_le_bytes();
        let [e0, e1, e2, e3] = self.span.end.to_le_bytes();
        let [a0, a1, a2, a3] = self.await_span.start.to_le_bytes();
        let [z0, z1, z2, z3] = self.await_span.end.to_le_bytes();
        [
            i0, i1, i2, i3, r0, r1, r2, r3, w0, w1, w2, w3, s0, s1, s2, s3, e0, e1, e2, e3, a0, a1,
            a2, a3, z0, z1, z2, z3,
        ]
    }
}

impl TableRow<8> for WrapperRow {
    ghost row_bytes = { wrapper_bytes };

    fn to_bytes(&self) -> [u8; 8] {
        let wrap = number_of_wrap(self.wrap);
        let helper = number_of_helper(self.helper);
        let eval = u8::from(self.eval);
        let [m0, m1, m2, m3] = self.module.to_le_bytes();
        [wrap, helper, eval, 0, m0, m1, m2, m3]
    }
}

pub fn bytes_of_head(marks: u32, awaits: u32, wrappers: u32, length: u32) -> [u8; 16]
    requires { length ≡ table_length marks awaits wrappers }
    ensures { result ≡ head_bytes marks awaits wrappers }
{
    let [m0, m1, m2, m3] = marks.to_le_bytes();
    let [a0, a1, a2, a3] = awaits.to_le_bytes();
    let [w0, w1, w2, w3] = wrappers.to_le_bytes();
    let [l0, l1, l2, l3] = length.to_le_bytes();
    [
        m0, m1, m2, m3, a0, a1, a2, a3, w0, w1, w2, w3, l0, l1, l2, l3,
    ]
}
