// The modules of a set, as they are lent.
ghost use Rattle.std.specs.Prelude.{◌≡◌, ◌+◌, ◌*◌, ◌≤◌, length};
ghost use Rattle.set_judging.specs.Members as members;

use crate::Member;
use cell::Address;

// Module k, of three numbers for each.
pub fn member_at(numbers: &[u32], k: usize) -> Member
    requires { 3 * k + 3 ≤ length numbers.now }
    ensures { result ≡ members.member_at numbers.now k }
{
    let i = 3 * k;
    Member {
        address: Address(numbers[i]),
        place: numbers[i + 1],
        size: numbers[i + 2],
    }
}

// The file of a module: its part of the buffer.
pub fn file_of(buffer: &[u8], x: Member) -> &[u8]
    requires { x.place + x.size ≤ length buffer.now }
    ensures { result.now ≡ members.file_of buffer.now x }
{
    let place = x.place as usize;
    let end = place + (x.size as usize);
    &buffer[place..end]
}
