//! A test of each row.
ghost use Rattle.lrpar_table_rows.specs.Entries.{TestsEach};

/// Whether each row passes the test.
pub(crate) fn all_rows<X, F: Fn(&[X]) -> bool>(rows: &[Vec<X>], test: F) -> bool
    requires { F.IsAlwaysCallable test }
    ensures { TestsEach F.Fn test rows.now result }
{
    for row in rows {
        if !test(row) {
            return false;
        }
    }
    true
}
