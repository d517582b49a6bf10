// The text form goes both ways: what a table's source writes reads as the same rows.
#![tactic(auto)]

#[cfg(test)]
mod tests {
    use row_source::RowSource;
    use std::test::Fail;
    use table::{read_table, write_table};

    const TEXT: &str = "runtime 7 # every kind, flag and kind of record
module none lazy await module node entry 1..2
   import 0 star 3..4
 require - 5..6
\tdynamic-import 4294967294 7..8
  at-import 1 9..10
  url-import 2 11..4294967295
  new-url 3 0..0
  hot-accept - 13..14

module esm entry node
external
module cjs 007..00
  require 1 0..9
";

    #[test]
    fn round_trip(rt: HostRuntime) -> Result<(), Fail> {
        let heap = rt.alloc();
        let first = read_table(heap, TEXT)?;
        assert_eq!(rt; first.modules.len(), 4);
        assert_eq!(rt; first.records.len(), 8);
        let source = RowSource::open(
            first.runtime,
            first.modules.as_slice(),
            first.records.as_slice(),
        );
        let text = write_table(heap, &source)?;
        let second = read_table(heap, text.as_str())?;
        assert_eq!(rt; second.runtime, first.runtime);
        assert!(rt; second.modules.as_slice() == first.modules.as_slice());
        assert!(rt; second.records.as_slice() == first.records.as_slice());
        let again = RowSource::open(
            second.runtime,
            second.modules.as_slice(),
            second.records.as_slice(),
        );
        let text_again = write_table(heap, &again)?;
        assert!(rt; text_again.as_str() == text.as_str());
        Ok(())
    }
}
