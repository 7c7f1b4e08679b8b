// Two rows into one child that start together.
ghost use Rattle.std.specs.Prelude.{◌≡◌};
ghost use Rattle.ground.specs.Searches.{found};
ghost use Rattle.tables.specs.Tables.{edge_at};
ghost use Rattle.repair.specs.Ends.{same_start_of, tied};

use tables::rows::{EdgeRow, Rows};

fn same_start(a: EdgeRow, b: EdgeRow) -> bool
    ensures { result ≡ same_start_of a b }
{
    (a.child == b.child) & (a.from == b.from)
}

// The smallest row that shares its child and its start with a smaller row: a scan over pairs of rows, left by a
// label at the first tie, the form that document 01 names. Of m rows there are m * (m - 1) / 2 pairs.
pub fn first_tie(rows: &Rows<'_, EdgeRow>) -> Option<usize>
    ensures { result ≡ found (tied (edge_at rows.now.numbers)) rows.now.count }
{
    let mut first = None;
    'rows: for i in 0..rows.len() {
        let row = rows.row(i);
        for j in 0..i {
            if same_start(rows.row(j), row) {
                first = Some(i);
                break 'rows;
            }
        }
    }
    first
}
