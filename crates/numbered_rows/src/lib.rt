//! What is kept by number, in the order of the numbers, found in logarithmic time.
#![tactic(auto)]

ghost use Rattle.std.specs.Prelude.{◌≡◌, ◌<◌, ◌≤◌, length, IfOk, IfErr, IsTrue};
ghost use Rattle.std.specs.Ordering.{nat_cmp};
ghost use Rattle.numbered_rows.specs.Numbered.{is_in_order};
ghost use Rattle.numbered_rows.specs.Places.{IsPlace, IsGap};

use std::cmp::Ordering;

/// Where the number's row is, or where it would go. The rows are in the order of their numbers.
pub fn place<T>(rows: &[(u64, T)], number: u64) -> Result<usize, usize>
    requires { IsTrue (is_in_order rows.now) }
    ensures found { IfOk result (IsPlace rows.now number) }
    ensures in_range { IfOk result (λ place. place < length rows.now) }
    ensures up_to_end { IfErr result (λ gap. gap ≤ length rows.now) }
    ensures absent { IfErr result (IsGap rows.now number) }
{
    rows.binary_search_by(
        |row: &(u64, T)| -> Ordering
            ensures { result ≡ nat_cmp row.now.0 number }
        { row.0.cmp(&number) },
    )
}
