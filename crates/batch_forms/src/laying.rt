// Memory as a form finds it.
ghost use Rattle.std.specs.Prelude.{◌≡◌, ◌+◌, ◌≤◌, length};
ghost use Rattle.batch_forms.specs.Forms as forms;

use cell::Address;

// The start memory afresh, all of it, and then the form over it.
pub fn lay_form(start: &[u8], form: &[u8], address: Address, memory: &mut [u8])
    requires memory_len { length memory.old ≡ length start.now }
    requires form_in_bounds { address.0 + length form.now ≤ length memory.old }
    ensures { memory.new ≡ forms.formed start.now address.0 form.now }
{
    let at = address.0 as usize;
    memory.copy_from_slice(start);
    memory[at..at + form.len()].copy_from_slice(form);
}
