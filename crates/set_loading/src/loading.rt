// A set of modules into memory: judged in one pass, then copied in one, with no second buffer.
ghost use Rattle.std.specs.Prelude.{◌≡◌, ◌≤◌, length};
ghost use Rattle.cell.specs.Memory.{cell_count};
ghost use Rattle.module_loading.specs.Answers.{loaded_to};
ghost use Rattle.set_judging.specs.Members as members;
ghost use Rattle.set_judging.specs.Conditions as conditions;
ghost use Rattle.set_loading.specs.Sets as sets;

use cell::{CellCount, Refusal};
use module_copying::copying::copy_cells;
use module_judging::judgement::count_of;
use module_loading::loading::code_of;
use set_judging::Member;
use set_judging::members::{file_of, member_at};
use set_refusals::judge_set;

// One module, which has been judged; how many cells it has.
#[tactic(auto, using(set_judging::proofs::PassLaws::file_length_lem), unfolding(crate::specs::Sets::copied_one))]
fn copy_member(order: u8, memory: &mut [u8], buffer: &[u8], x: Member) -> CellCount
    requires { conditions.Fits (length memory.old) buffer.now x }
    ensures value { result ≡ cell_count (members.cells_of buffer.now x) }
    ensures memory_after { memory.new ≡ sets.copied_one order buffer.now x memory.old }
{
    let file = file_of(buffer, x);
    let cells = count_of(file);
    copy_cells(file[7], order, code_of(file), memory, x.address, cells);
    cells
}

// All modules, in the order given; how many cells they have in all.
#[tactic(auto, using(set_judging::proofs::MemberLaws::members_from, set_judging::proofs::MemberLaws::members_none, crate::proofs::SetLaws::one_length), unfolding(set_judging::specs::Conditions::AllFit))]
fn copy_members(order: u8, memory: &mut [u8], buffer: &[u8], numbers: &[u32]) -> CellCount
    requires all_fit { conditions.AllFit (length memory.old) buffer.now numbers.now }
    requires memory_len_bound { length memory.old ≤ 16777216 }
    requires numbers_len_bound { length numbers.now ≤ 48 }
    ensures value { result ≡ cell_count (sets.cells_in buffer.now (members.members_of numbers.now)) }
    ensures memory_after { memory.new ≡ sets.copied_set order buffer.now (members.members_of numbers.now) memory.old }
{
    let mut total: u32 = 0;
    for k in 0..numbers.len() / 3 {
        let cells = copy_member(order, memory, buffer, member_at(numbers, k));
        total += cells.0;
    }
    CellCount(total)
}

// All modules of a set, or none.
#[tactic(auto, using(cell::proofs::JudgementLaws::machine_good, set_judging::proofs::MemberLaws::members_length, set_judging::proofs::SetLaws::set_passing, crate::proofs::SetLaws::set_fits), unfolding(crate::specs::Sets::load_set_of))]
pub fn load_set(
    order: u8,
    memory: &mut [u8],
    buffer: &[u8],
    numbers: &[u32],
) -> Result<CellCount, Refusal>
    ensures { loaded_to memory.new result ≡ sets.load_set_of order memory.old buffer.now numbers.now }
{
    judge_set(memory.len(), order, buffer, numbers)?;
    Ok(copy_members(order, memory, buffer, numbers))
}
