// A request of any instruction, by the request of one.
ghost use Rattle.std.specs.Prelude.{◌≡◌, Some, None};
ghost use Rattle.list_shapes.specs.Shapes as shapes;
ghost use Rattle.list_shapes.specs.declared.Shape.{Shape};
ghost use Rattle.list_shapes.specs.declared.Shape.TheVariants.{One, Two, TwoReturns, Three, Byte, Roll};

use crate::Shape;
use machine::{ByteStore, CellStore, Request, RollStores, ThreeStores, TwoReturns, TwoStores};

// Stores that are a shape.
pub trait IntoShape: Copy {
    ghost shape: { Self → Shape };

    fn into_shape(self) -> Shape
        ensures { result ≡ shape self };
}

impl IntoShape for () {
    ghost shape = { λ s. One None };

    fn into_shape(self) -> Shape {
        Shape::One(None)
    }
}

impl IntoShape for CellStore {
    ghost shape = { λ s. One (Some s) };

    fn into_shape(self) -> Shape {
        Shape::One(Some(self))
    }
}

impl IntoShape for Option<CellStore> {
    ghost shape = { One };

    fn into_shape(self) -> Shape {
        Shape::One(self)
    }
}

impl IntoShape for TwoStores {
    ghost shape = { Two };

    fn into_shape(self) -> Shape {
        Shape::Two(self)
    }
}

impl IntoShape for TwoReturns {
    ghost shape = { TwoReturns };

    fn into_shape(self) -> Shape {
        Shape::TwoReturns(self)
    }
}

impl IntoShape for ThreeStores {
    ghost shape = { Three };

    fn into_shape(self) -> Shape {
        Shape::Three(self)
    }
}

impl IntoShape for ByteStore {
    ghost shape = { Byte };

    fn into_shape(self) -> Shape {
        Shape::Byte(self)
    }
}

impl IntoShape for RollStores {
    ghost shape = { Roll };

    fn into_shape(self) -> Shape {
        Shape::Roll(self)
    }
}

pub fn shaped<S: IntoShape>(q: Request<S>) -> Request<Shape>
    ensures { result ≡ shapes.shaped S.shape q }
{
    Request {
        sp: q.sp,
        rp: q.rp,
        stores: q.stores.into_shape(),
        then: q.then,
    }
}
