// Control structures.
#![tactic(auto, unfolding(instruction::specs::Plain::plain_of, instruction::specs::Taking::taking_of))]

ghost use Rattle.std.specs.Prelude.{◌≡◌, length};
ghost use Rattle.machine.specs.Places as places;
ghost use Rattle.machine.specs.Effects as effects;
ghost use Rattle.instruction.specs.Plain as plain;
ghost use Rattle.instruction.specs.Taking as taking;

use cell::number::{add, subtract};
use cell::{Address, Fault};
use instruction::shape::{branch_operand, return_address};
use instruction::{Instruction, OperandForm};
use machine::places::{fetch, fetch_data, fetch_return};
use machine::{CellStore, Machine, Registers, Request, Target, Then, Write};

// 42h BRANCH, 43h BRANCHI ( -- )
pub fn branch(
    machine: Machine,
    memory: &[u8],
    r: Registers,
    form: OperandForm,
) -> Result<Request<()>, Fault>
    requires { places.Fits machine (length memory.now) }
    ensures { effects.asked effects.no_store result ≡ taking.taking_at machine form taking.branch memory.now r }
{
    let to = branch_operand(machine, memory, r, form)?;
    Ok(Request {
        sp: r.sp,
        rp: r.rp,
        stores: (),
        then: Then::Jump(Address(to)),
    })
}

// 44h ?BRANCH, 45h ?BRANCHI ( flag -- )
pub fn question_branch(
    machine: Machine,
    memory: &[u8],
    r: Registers,
    form: OperandForm,
) -> Result<Request<()>, Fault>
    requires { places.Fits machine (length memory.now) }
    ensures { effects.asked effects.no_store result ≡ taking.taking_at machine form taking.question_branch memory.now r }
{
    let x = fetch_data(machine, memory, Address(r.sp))?;
    if x != 0 {
        return Ok(Request {
            sp: add(r.sp, 4),
            rp: r.rp,
            stores: (),
            then: Then::GoOn,
        });
    }
    let to = branch_operand(machine, memory, r, form)?;
    Ok(Request {
        sp: add(r.sp, 4),
        rp: r.rp,
        stores: (),
        then: Then::Jump(Address(to)),
    })
}

// 46h EXECUTE ( xt -- ) R: ( -- a-addr )
pub fn execute(machine: Machine, memory: &[u8], r: Registers) -> Result<Request<CellStore>, Fault>
    requires { places.Fits machine (length memory.now) }
    ensures { effects.asked effects.one_store result ≡ plain.plain_at machine Instruction.Execute memory.now r }
{
    let to = fetch_data(machine, memory, Address(r.sp))?;
    Ok(Request {
        sp: add(r.sp, 4),
        rp: subtract(r.rp, 4),
        stores: CellStore {
            target: Target::Return,
            write: Write {
                at: Address(subtract(r.rp, 4)),
                value: r.ep,
            },
        },
        then: Then::Jump(Address(to)),
    })
}

// 47h @EXECUTE ( a-addr1 -- ) R: ( -- a-addr2 )
pub fn fetch_execute(
    machine: Machine,
    memory: &[u8],
    r: Registers,
) -> Result<Request<CellStore>, Fault>
    requires { places.Fits machine (length memory.now) }
    ensures { effects.asked effects.one_store result ≡ plain.plain_at machine Instruction.FetchExecute memory.now r }
{
    let a = fetch_data(machine, memory, Address(r.sp))?;
    let to = fetch(machine, memory, Address(a))?;
    Ok(Request {
        sp: add(r.sp, 4),
        rp: subtract(r.rp, 4),
        stores: CellStore {
            target: Target::Return,
            write: Write {
                at: Address(subtract(r.rp, 4)),
                value: r.ep,
            },
        },
        then: Then::Jump(Address(to)),
    })
}

// 48h CALL, 49h CALLI ( -- ) R: ( -- a-addr )
pub fn call(
    machine: Machine,
    memory: &[u8],
    r: Registers,
    form: OperandForm,
) -> Result<Request<CellStore>, Fault>
    requires { places.Fits machine (length memory.now) }
    ensures { effects.asked effects.one_store result ≡ taking.taking_at machine form taking.call memory.now r }
{
    let to = branch_operand(machine, memory, r, form)?;
    let rp = subtract(r.rp, 4);
    Ok(Request {
        sp: r.sp,
        rp,
        stores: CellStore {
            target: Target::Return,
            write: Write {
                at: Address(rp),
                value: return_address(r, form),
            },
        },
        then: Then::Jump(Address(to)),
    })
}

// 4Ah EXIT ( -- ) R: ( a-addr -- )
pub fn exit(machine: Machine, memory: &[u8], r: Registers) -> Result<Request<()>, Fault>
    requires { places.Fits machine (length memory.now) }
    ensures { effects.asked effects.no_store result ≡ plain.plain_at machine Instruction.Exit memory.now r }
{
    let to = fetch_return(machine, memory, Address(r.rp))?;
    Ok(Request {
        sp: r.sp,
        rp: add(r.rp, 4),
        stores: (),
        then: Then::Jump(Address(to)),
    })
}
