// Which tables are taken.
#![tactic(auto, unfolding(crate::specs::Tables::judge_table))]

ghost use Rattle.std.specs.Prelude.{◌≡◌};
ghost use Rattle.code_tables.specs.Tables as tables;

use cell::Refusal;
use machine::Table;

// Whether both numbers of a table are 0.
fn is_none_given(table: Table) -> bool
    ensures { result ≡ tables.none_given table }
{
    let first = table.first;
    let end = table.end;
    first.0 == 0 && end.0 == 0
}

// Whether a table is unaligned, reversed, over the machine's own cells or past memory.
fn is_bad_table(length: usize, table: Table) -> bool
    ensures { result ≡ tables.bad_table length table }
{
    let first = table.first;
    let end = table.end;
    first.0 % 4 != 0
        || end.0 % 4 != 0
        || end.0 < first.0
        || first.0 < 0x10
        || length < end.0 as usize
}

pub fn judge_table(length: usize, table: Table) -> Result<(), Refusal>
    ensures { result ≡ tables.judge_table length table }
{
    if !is_none_given(table) && is_bad_table(length, table) {
        return Err(Refusal::Table);
    }
    Ok(())
}
