// What is judged of a machine before all else.
#![tactic(auto, unfolding(crate::specs::Bounds::judge_bounded))]

ghost use Rattle.std.specs.Prelude.{◌≡◌};
ghost use Rattle.bounds.specs.Bounds as bounds;

use areas::Areas;
use areas::judging::judge_areas;
use cell::Refusal;
use cell::judgement::judge_machine;
use code_tables::judging::judge_table;
use machine::Table;

// What every call that is given areas and a table judges first.
pub fn judge_bounded(length: usize, order: u8, given: Areas, table: Table) -> Result<(), Refusal>
    ensures { result ≡ bounds.judge_bounded length order given table }
{
    judge_machine(length, order)?;
    judge_areas(length, given)?;
    judge_table(length, table)
}
