ghost use Rattle.std.specs.Prelude.{◌≡◌, ◌<◌, ◌≤◌, length, IfOk, IfErr, IsTrue};
ghost use Rattle.std.specs.Ordering.{nat_cmp};
ghost use Rattle.std.specs.Cmp.Lexicographic.{slice_cmp};
ghost use Rattle.keyed_rows.specs.Places.{IsPlace, IsGap};
ghost use Rattle.proxy_model.specs.Keyed.{is_in_order};

use crate::mark::Mark;
use std::cmp::Ordering;

/// Where the mark's row is, or where it would go. The rows are in the order of their marks.
pub(crate) fn place(rows: &[(Mark, u64)], mark: &Mark) -> Result<usize, usize>
    requires { IsTrue (is_in_order rows.now) }
    ensures found { IfOk result (IsPlace rows.now mark.now) }
    ensures in_range { IfOk result (λ place. place < length rows.now) }
    ensures up_to_end { IfErr result (λ gap. gap ≤ length rows.now) }
    ensures absent { IfErr result (IsGap rows.now mark.now) }
{
    rows.binary_search_by(
        |row: &(Mark, u64)| -> Ordering
            ensures { result ≡ slice_cmp nat_cmp row.now.0 mark.entry.now }
        { row.0.compare(mark) },
    )
}
