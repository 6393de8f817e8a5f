//! Writing into the caller's table.
ghost use Rattle.std.specs.Prelude.{◌≡◌, ◌-◌, ◌≤◌, ◌++◌, length, drop, replicate};
ghost use Rattle.survey.specs.Plans.{zero_record};

use mesh::record::TetRecord;

/// Writes the records over the front of the table and clears what follows them, to just before
/// `end`.
pub(crate) fn write_records(table: &mut [TetRecord], records: &[TetRecord], end: usize)
    requires { (length records.now ≤ end) × (end ≤ length table.old) }
    ensures { table.new ≡ records.now ++ replicate (end - length records.now) zero_record ++ drop end table.old }
{
    table[..records.len()].copy_from_slice(records);
    table[records.len()..end].fill(TetRecord::default());
}
