ghost use Rattle.std.specs.Prelude.{◌≡◌, map, None, Some, true, IfSome, IfNone, IsTrue, is_some};
ghost use Rattle.numbered_rows.specs.Numbered.{at, is_in_order};
ghost use Rattle.read_model.specs.PlainRead.{in_stage};
ghost use Rattle.ask_tables.specs.Marks.{is_narrow};
ghost use Rattle.known_asks.specs.Indexed.{Indexed, IsAt};
ghost use Rattle.ask_tables.specs.Marked.{Marked, HasRow};
ghost use Rattle.ask_tables.specs.RowMarks.{marks_of, moved};

use crate::rule::Rule;
use ask_tables::{Tables, marks_of};
use numbered_rows::place;
use read_model::{Asked, Stage};

/// Where the ticket's number is in the index, and its row in the rows.
pub(crate) fn places(
    rows: &[(u64, Asked)],
    index: &[(u64, u64)],
    ticket: u64,
) -> Option<(usize, usize)>
    requires { Indexed rows.now index.now }
    ensures found { IfSome result (λ p. IsAt rows.now index.now ticket p.0 p.1) }
    ensures absent { IfNone result (at index.now ticket ≡ None) }
{
    let Ok(at) = place(index, ticket) else {
        return None;
    };
    match place(rows, index[at].1) {
        Ok(row) => Some((at, row)),
        Err(_) => unreachable!(),
    }
}

/// The request of this number, which is there.
pub(crate) fn row_of(rows: &[(u64, Asked)], number: u64) -> &Asked
    requires in_order { IsTrue (is_in_order rows.now) }
    requires there { is_some (at rows.now number) ≡ true }
    ensures { Some result.now ≡ at rows.now number }
{
    match place(rows, number) {
        Ok(at) => &rows[at].1,
        Err(_) => unreachable!(),
    }
}

/// Each is changed by the rule, and found by its marks as before.
pub(crate) fn change_rows<R: Rule>(rows: &mut Vec<(u64, Asked)>, tables: &mut Tables, rule: &R)
    requires in_order { IsTrue (is_in_order rows.old.items) }
    requires marked { Marked rows.old.items tables.old }
    ensures rows { rows.new.items ≡ map (λ r. (r.0, R.changed rule.now r.1)) rows.old.items }
    ensures marked { Marked rows.new.items tables.new }
{
    for row in rows.iter_mut() {
        change_row(row, tables, rule);
    }
}

/// The row's request is in this stage now, and found by its marks as before.
pub(crate) fn set_row(row: &mut (u64, Asked), tables: &mut Tables, stage: Stage)
    requires { HasRow (marks_of row.old.0 row.old.1) row.old.0 tables.old }
    ensures row { row.new ≡ (row.old.0, in_stage stage row.old.1) }
    ensures tables { tables.new ≡ moved row.old.1 row.new.1 row.old.0 tables.old }
    ensures narrow { is_narrow row.new.1 ≡ true }
{
    let marks = marks_of(&row.1, row.0);
    row.1.stage = stage;
    tables.turn(&marks, &row.1, row.0);
}

/// The row's request is changed by the rule, and found by its marks as before.
pub(crate) fn change_row<R: Rule>(row: &mut (u64, Asked), tables: &mut Tables, rule: &R)
    requires { HasRow (marks_of row.old.0 row.old.1) row.old.0 tables.old }
    ensures row { row.new ≡ (row.old.0, R.changed rule.now row.old.1) }
    ensures tables { tables.new ≡ moved row.old.1 row.new.1 row.old.0 tables.old }
    ensures narrow { is_narrow row.new.1 ≡ true }
{
    let marks = marks_of(&row.1, row.0);
    rule.change(&mut row.1);
    tables.turn(&marks, &row.1, row.0);
}
