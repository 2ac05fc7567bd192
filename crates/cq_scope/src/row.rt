ghost use Rattle.std.specs.Prelude.{◌≡◌, true, false};
ghost use Rattle.cq_scope.specs.Rows as rows;

/// Sets the first place of the row, and no other.
pub(crate) fn begin(row: &mut [bool])
    ensures { row.new ≡ rows.begun true row.old }
{
    let mut is_set = true;
    for i in 0..row.len() {
        row[i] = is_set;
        is_set = false;
    }
}

/// Sets each place after one that is set.
pub(crate) fn spread(row: &mut [bool])
    ensures { row.new ≡ rows.spread false row.old }
{
    let mut is_set = false;
    for i in 0..row.len() {
        is_set |= row[i];
        row[i] = is_set;
    }
}
