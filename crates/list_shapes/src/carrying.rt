// The stores of a shape, checked and made.
ghost use Rattle.list_shapes.specs.Shapes as shapes;

use crate::Shape;
use cell::Fault;
use commits::stores::Stores;
use machine::Machine;

impl Stores for Shape {
    ghost listed = { shapes.shape_stores };

    fn check(self, machine: Machine, memory: &[u8]) -> Result<(), Fault> {
        match self {
            Shape::One(s) => s.check(machine, memory),
            Shape::Two(s) => s.check(machine, memory),
            Shape::TwoReturns(s) => s.check(machine, memory),
            Shape::Three(s) => s.check(machine, memory),
            Shape::Byte(s) => s.check(machine, memory),
            Shape::Roll(s) => s.check(machine, memory),
        }
    }

    fn write(self, machine: Machine, memory: &mut [u8]) {
        match self {
            Shape::One(s) => s.write(machine, memory),
            Shape::Two(s) => s.write(machine, memory),
            Shape::TwoReturns(s) => s.write(machine, memory),
            Shape::Three(s) => s.write(machine, memory),
            Shape::Byte(s) => s.write(machine, memory),
            Shape::Roll(s) => s.write(machine, memory),
        }
    }
}
