// Where an item leads, found by reading alone, so that the machine stops in front of it with memory as it was.
#![tactic(auto)]

pub mod finding;
pub mod judging;

use list_machine::Outside;
use list_shapes::Shape;
use machine::{Exception, Request};
use pack_layout::ItemNumber;

// Where an item leads: to an item, with whether it is run on into; to a stop; or outside.
#[derive(Clone, Copy)]
pub enum Way {
    To(ItemNumber, bool),
    Halt(u32),
    Outside(Outside),
}

// What a throw comes from: an exception, or THROW itself.
#[derive(Clone, Copy)]
pub enum Cause {
    Raised(Exception),
    Given,
}

// How an item is to be carried out: by what it asked for, or by a throw.
#[derive(Clone, Copy)]
pub enum Intent {
    Act(Request<Shape>, Way),
    End(Cause, Way),
}
