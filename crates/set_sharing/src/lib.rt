// Whether two modules of a set share a byte of memory. Each has been judged by itself, and so ends where the length of its file says.
#![tactic(auto, using(set_judging::proofs::MemberLaws::members_from, set_judging::proofs::MemberLaws::members_none, set_judging::proofs::SharingLaws::ascending_unshared), unfolding(set_judging::specs::Sharing::Headed))]

ghost use Rattle.std.specs.Prelude.{◌≡◌, ◌+◌, ◌*◌, ◌≤◌, max, min, ltb, length, drop};
ghost use Rattle.set_judging.specs.Members as members;
ghost use Rattle.set_judging.specs.Sharing as shared;

use set_judging::Member;
use set_judging::members::member_at;

// Whether two parts of memory, each from its first byte up to its end, have a byte in common.
fn is_common(first: usize, end: usize, other_first: usize, other_end: usize) -> bool
    ensures { result ≡ ltb (max first other_first) (min end other_end) }
{
    first.max(other_first) < end.min(other_end)
}

// Where a module begins in memory.
fn first_of(x: Member) -> usize
    ensures { result ≡ x.address.0 }
{
    x.address.0 as usize
}

// Where it ends.
fn end_of(x: Member) -> usize
    requires { 12 ≤ x.size }
    ensures { result ≡ shared.end_by_size x }
{
    first_of(x) + ((x.size as usize) - 12)
}

// Whether module i shares a byte with a later one.
fn shares_later(numbers: &[u32], i: usize) -> bool
    requires headed { shared.Headed numbers.now }
    requires i_in_bounds { 3 * i + 3 ≤ length numbers.now }
    ensures { result ≡ shared.shares_one shared.end_by_size (members.member_at numbers.now i) (drop (i + 1) (members.members_of numbers.now)) }
{
    let x = member_at(numbers, i);
    let first = first_of(x);
    let end = end_of(x);
    for j in i + 1..numbers.len() / 3 {
        let y = member_at(numbers, j);
        if is_common(first, end, first_of(y), end_of(y)) {
            return true;
        }
    }
    false
}

// Whether each begins where the one before it ends, or later. Then no two share, and the pairs need not be compared.
#[tactic(auto, using(set_judging::proofs::SharingLaws::ascending_on, set_judging::proofs::SharingLaws::ascending_not, set_judging::proofs::MemberLaws::members_none), unfolding(set_judging::specs::Sharing::Headed))]
fn is_ascending(numbers: &[u32]) -> bool
    requires { shared.Headed numbers.now }
    ensures { result ≡ shared.ascending_from shared.end_by_size 0 (members.members_of numbers.now) }
{
    let mut end = 0;
    for k in 0..numbers.len() / 3 {
        let x = member_at(numbers, k);
        if first_of(x) < end {
            return false;
        }
        end = end_of(x);
    }
    true
}

// Whether any two do.
pub fn is_sharing(numbers: &[u32]) -> bool
    requires { shared.Headed numbers.now }
    ensures { result ≡ shared.sharing shared.end_by_size (members.members_of numbers.now) }
{
    if is_ascending(numbers) {
        return false;
    }
    for i in 0..numbers.len() / 3 {
        if shares_later(numbers, i) {
            return true;
        }
    }
    false
}
