// The instructions that put items of the data stack into another order.
#![tactic(auto, unfolding(instruction::specs::Plain::plain_of))]

ghost use Rattle.std.specs.Prelude.{◌≡◌, length};
ghost use Rattle.machine.specs.Places as places;
ghost use Rattle.machine.specs.Effects as effects;
ghost use Rattle.instruction.specs.Plain as plain;

use cell::number::{add, subtract};
use cell::{Address, Fault};
use instruction::Instruction;
use machine::places::fetch_data;
use machine::{Machine, Registers, Request, Then, ThreeStores, TwoStores, Write};

// 03h SWAP ( x1 x2 -- x2 x1 )
pub fn swap(machine: Machine, memory: &[u8], r: Registers) -> Result<Request<TwoStores>, Fault>
    requires { places.Fits machine (length memory.now) }
    ensures { effects.asked effects.two_stores result ≡ plain.plain_at machine Instruction.Swap memory.now r }
{
    let top = fetch_data(machine, memory, Address(r.sp))?;
    let below = fetch_data(machine, memory, Address(add(r.sp, 4)))?;
    Ok(Request {
        sp: r.sp,
        rp: r.rp,
        stores: TwoStores {
            first: Write {
                at: Address(add(r.sp, 4)),
                value: top,
            },
            second: Write {
                at: Address(r.sp),
                value: below,
            },
        },
        then: Then::GoOn,
    })
}

// 05h ROT ( x1 x2 x3 -- x2 x3 x1 )
pub fn rot(machine: Machine, memory: &[u8], r: Registers) -> Result<Request<ThreeStores>, Fault>
    requires { places.Fits machine (length memory.now) }
    ensures { effects.asked effects.three_stores result ≡ plain.plain_at machine Instruction.Rot memory.now r }
{
    let x3 = fetch_data(machine, memory, Address(r.sp))?;
    let x2 = fetch_data(machine, memory, Address(add(r.sp, 4)))?;
    let x1 = fetch_data(machine, memory, Address(add(r.sp, 8)))?;
    Ok(Request {
        sp: r.sp,
        rp: r.rp,
        stores: ThreeStores {
            first: Write {
                at: Address(add(r.sp, 8)),
                value: x2,
            },
            second: Write {
                at: Address(add(r.sp, 4)),
                value: x3,
            },
            third: Write {
                at: Address(r.sp),
                value: x1,
            },
        },
        then: Then::GoOn,
    })
}

// 06h -ROT ( x1 x2 x3 -- x3 x1 x2 )
pub fn minus_rot(
    machine: Machine,
    memory: &[u8],
    r: Registers,
) -> Result<Request<ThreeStores>, Fault>
    requires { places.Fits machine (length memory.now) }
    ensures { effects.asked effects.three_stores result ≡ plain.plain_at machine Instruction.MinusRot memory.now r }
{
    let top = fetch_data(machine, memory, Address(r.sp))?;
    let middle = fetch_data(machine, memory, Address(add(r.sp, 4)))?;
    let lowest = fetch_data(machine, memory, Address(add(r.sp, 8)))?;
    Ok(Request {
        sp: r.sp,
        rp: r.rp,
        stores: ThreeStores {
            first: Write {
                at: Address(add(r.sp, 8)),
                value: top,
            },
            second: Write {
                at: Address(add(r.sp, 4)),
                value: lowest,
            },
            third: Write {
                at: Address(r.sp),
                value: middle,
            },
        },
        then: Then::GoOn,
    })
}

// 07h TUCK ( x1 x2 -- x2 x1 x2 )
pub fn tuck(machine: Machine, memory: &[u8], r: Registers) -> Result<Request<ThreeStores>, Fault>
    requires { places.Fits machine (length memory.now) }
    ensures { effects.asked effects.three_stores result ≡ plain.plain_at machine Instruction.Tuck memory.now r }
{
    let x2 = fetch_data(machine, memory, Address(r.sp))?;
    let x1 = fetch_data(machine, memory, Address(add(r.sp, 4)))?;
    Ok(Request {
        sp: subtract(r.sp, 4),
        rp: r.rp,
        stores: ThreeStores {
            first: Write {
                at: Address(add(r.sp, 4)),
                value: x2,
            },
            second: Write {
                at: Address(r.sp),
                value: x1,
            },
            third: Write {
                at: Address(subtract(r.sp, 4)),
                value: x2,
            },
        },
        then: Then::GoOn,
    })
}
