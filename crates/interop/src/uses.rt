// What many rows are used for together.
ghost use Rattle.std.specs.Prelude.{◌≡◌, Option};
ghost use Rattle.std.specs.Fn.{FnReturnsAt};
ghost use Rattle.spread.specs.declared.interop_use.InteropUse.{InteropUse};
ghost use Rattle.interop.specs.Joins.{all_uses};

use spread::{Fact, InteropUse};

/// The uses of all rows, joined; none where no row has one.
pub fn joined_uses<Row, F: Fn(&Row) -> Option<InteropUse>>(
    rows: &[Row],
    use_of: F,
) -> Option<InteropUse>
    requires { F.IsAlwaysCallable use_of }
    ensures { (of : Row → Option InteropUse) → ((row : Row) (u : Option InteropUse) → FnReturnsAt F.Fn use_of row u → u ≡ of row) → result ≡ all_uses of rows.now }
{
    let mut uses: Option<InteropUse> = None;
    for row in rows {
        uses = uses.joined(use_of(row));
    }
    uses
}
