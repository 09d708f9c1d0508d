//! Each place of a table is asked once.
ghost use Rattle.std.specs.Prelude.{◌≡◌, ◌+◌, ◌*◌, ◌≤◌, ◌++◌, map, length, nat_le, IfSome};
ghost use Rattle.std.specs.List.{range_with_len};
ghost use Rattle.std.specs.Option.{option_map};
ghost use Rattle.duality.specs.Tests.{answer};
ghost use Rattle.table.specs.Grid.{matrix_of};
ghost use Rattle.terms.specs.Numbers.{numbers_of as terms_of};
ghost use Rattle.evaluate.specs.Stated.{problem_of as stated};
ghost use Rattle.job.specs.Numbers.{numbers_of, problem_of};
ghost use Rattle.reading.specs.Plain.{listed, plain, Agrees, RowByRow, SamePoints, SameFloors};

use arrayvec::ArrayVec;
use job::Job;
use table::{Flip, Table};
use terms::{Terms, placed};

/// Whether so many rows of so many numbers find room in so many places.
fn have_room(rows: usize, columns: usize, places: usize) -> bool
    ensures { result ≡ nat_le (rows * columns) places }
{
    rows.checked_mul(columns)
        .is_some_and(|count| count <= places)
}

/// Puts the first `count` numbers of row i at the end of a list that has room for them.
fn push_row<T: Table, const N: usize>(
    list: &mut ArrayVec<i64, N>,
    table: &T,
    i: usize,
    count: usize,
)
    requires { length list.old.items + count ≤ N }
    ensures { list.new.items ≡ list.old.items ++ map (matrix_of (T.Table.meant table.now) i) (range_with_len 0 count) }
{
    for j in 0..count {
        list.push(table.place(i, j).unwrap_or(0));
    }
}

/// The first `rows` × `columns` numbers of a table in a place of a fixed size, row by row, with 0 for a blank and for a place outside the table.
/// Nothing where they are more than N.
pub fn numbers_in<T: Table, const N: usize>(
    table: &T,
    rows: usize,
    columns: usize,
) -> Option<ArrayVec<i64, N>>
    ensures value { option_map (λ v. v.items) result ≡ answer (nat_le (rows * columns) N) (listed rows columns (matrix_of (T.Table.meant table.now))) }
    ensures law { IfSome result (λ v. RowByRow rows columns (matrix_of (T.Table.meant table.now)) v.items) }
{
    if !have_room(rows, columns, N) {
        return None;
    }
    let mut list = ArrayVec::new();
    // More rows than N have no number.
    for i in 0..rows.min(N) {
        push_row(&mut list, table, i, columns);
    }
    Some(list)
}

/// The same terms in places of their own.
fn copy_of(terms: &Terms) -> Terms
    ensures { terms_of result ≡ terms_of terms.now }
{
    Terms {
        c: placed(&terms.c),
        l: placed(&terms.l),
        u: placed(&terms.u),
        lo: placed(&terms.lo),
        hi: placed(&terms.hi),
    }
}

/// The job that two tables and the terms state: G read row by row, A rope by rope, with 0 for a blank, and the terms as they stand.
pub fn read_job<G: Table, A: Table>(g: &G, a: &A, terms: &Terms) -> Job
    ensures value { numbers_of result ≡ plain (G.Table.meant g.now) (A.Table.meant a.now) (terms_of terms.now) }
    ensures law { Agrees (problem_of result) (stated (G.Table.meant g.now) (A.Table.meant a.now) terms.now) }
    ensures points { SamePoints (problem_of result) (stated (G.Table.meant g.now) (A.Table.meant a.now) terms.now) }
    ensures floors { SameFloors (problem_of result) (stated (G.Table.meant g.now) (A.Table.meant a.now) terms.now) }
{
    let ropes = terms.ropes();
    Job {
        terms: copy_of(terms),
        g: numbers_in(g, ropes, ropes).unwrap(),
        a: numbers_in(&Flip::over(a), ropes, terms.rows()).unwrap(),
    }
}
