// What is thrown for a fault.
#![tactic(auto, unfolding(crate::specs::Exceptions::exception_of))]

pub mod fixed;

ghost use Rattle.std.specs.Prelude.{◌≡◌};
ghost use Rattle.exceptions.specs.Exceptions as exceptions;

use cell::{Address, Fault};
use machine::{Exception, Machine, Span};

// What is thrown for a stack's fault at a place in memory: unaligned, or one of the two ends of its cells.
fn tell_end(span: Span, a: Address, below: Exception, above: Exception) -> Exception
    ensures { result ≡ exceptions.end_of span a.0 below above }
{
    if a.0 % 4 != 0 {
        return Exception::Alignment(a);
    }
    let last = span.last;
    if (a.0 as u64) < last.0 as u64 + 4 {
        return below;
    }
    above
}

// What is thrown for a fault.
pub fn tell(machine: Machine, f: Fault) -> Exception
    ensures { result ≡ exceptions.exception_of machine f }
{
    match f {
        Fault::Range(a) => Exception::Range(a),
        Fault::Alignment(a) => Exception::Alignment(a),
        Fault::Data(a) => tell_end(
            machine.stack,
            a,
            Exception::DataOverflow,
            Exception::DataUnderflow,
        ),
        Fault::Return(a) => tell_end(
            machine.returns,
            a,
            Exception::ReturnOverflow,
            Exception::ReturnUnderflow,
        ),
        Fault::Table => Exception::ReadOnly,
        Fault::Divisor => Exception::Divisor,
        Fault::Illegal => Exception::Illegal,
        Fault::Library => Exception::Library,
    }
}

// The code that a throw pushes.
pub fn code_of(e: Exception) -> u32
    ensures { result ≡ exceptions.exception_code e }
{
    match e {
        Exception::Range(_) => 0xFFFFFFF7,
        Exception::Alignment(_) => 0xFFFFFFE9,
        Exception::DataOverflow => 0xFFFFFFFD,
        Exception::DataUnderflow => 0xFFFFFFFC,
        Exception::ReturnOverflow => 0xFFFFFFFB,
        Exception::ReturnUnderflow => 0xFFFFFFFA,
        Exception::ReadOnly => 0xFFFFFFEC,
        Exception::Divisor => 0xFFFFFFF6,
        Exception::Illegal => 0xFFFFFF00,
        Exception::Library => 0xFFFFFEFF,
    }
}
