// What refuses a set of modules, in document 02's order.
#![tactic(auto, using(set_judging::proofs::MemberLaws::members_from, set_judging::proofs::MemberLaws::members_none, crate::proofs::TogetherLaws::members_few, crate::proofs::TogetherLaws::passed_headed, crate::proofs::TogetherLaws::judged_by_size), unfolding(set_judging::specs::Grounds::judge_member))]

ghost use Rattle.std.specs.Prelude.{◌≡◌, [], ◌∷◌};
ghost use Rattle.cell.specs.Refusals.{judge};
ghost use Rattle.set_judging.specs.Members as members;
ghost use Rattle.set_judging.specs.Sharing as shared;
ghost use Rattle.set_judging.specs.Grounds as grounds;

use cell::Refusal;
use cell::judgement::judge_machine;
use module_judging::judgement::judge_load;
use set_judging::Member;
use set_judging::members::{file_of, member_at};
use set_sharing::is_sharing;

// A module by itself.
fn judge_member(length: usize, order: u8, buffer: &[u8], x: Member) -> Result<(), Refusal>
    ensures { result ≡ grounds.judge_member length order buffer.now x }
{
    if buffer.len() < (x.place as usize) + (x.size as usize) {
        return Err(Refusal::Header);
    }
    judge_load(length, order, file_of(buffer, x), x.address)
}

// Every module, in the order given.
fn judge_members(length: usize, order: u8, buffer: &[u8], numbers: &[u32]) -> Result<(), Refusal>
    ensures { result ≡ grounds.judge_members length order buffer.now (members.members_of numbers.now) }
{
    for k in 0..numbers.len() / 3 {
        judge_member(length, order, buffer, member_at(numbers, k))?;
    }
    Ok(())
}

// The modules together, each of which has passed by itself.
fn judge_together(numbers: &[u32]) -> Result<(), Refusal>
    requires { shared.Headed numbers.now }
    ensures { result ≡ judge (grounds.module_set shared.end_by_size numbers.now ∷ []) }
{
    if numbers.len() % 3 != 0 || numbers.is_empty() || 48 < numbers.len() || is_sharing(numbers) {
        return Err(Refusal::ModuleSet);
    }
    Ok(())
}

// A set: what it is lent, then its modules by themselves, then together.
pub fn judge_set(length: usize, order: u8, buffer: &[u8], numbers: &[u32]) -> Result<(), Refusal>
    ensures { result ≡ grounds.judge_set length order buffer.now numbers.now }
{
    judge_machine(length, order)?;
    judge_members(length, order, buffer, numbers)?;
    judge_together(numbers)
}
