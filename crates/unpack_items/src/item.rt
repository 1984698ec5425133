// One item of an image.
#![tactic(auto, using(crate::proofs::Cells::cell_behind, crate::proofs::Cells::cell_inside), unfolding(cell::specs::Number::sum, cell::specs::Number::product))]

ghost use Rattle.std.specs.Prelude.{◌≡◌, ◌+◌, ◌≤◌, ◌<◌, get_or};
ghost use Rattle.cell.specs.Memory.{cell_count};
ghost use Rattle.cell.specs.Place.{address};
ghost use Rattle.pack_layout.specs.Layout.{extra};
ghost use Rattle.pack_layout.specs.Kinds.{class_of};
ghost use Rattle.pack_layout.specs.Reading.{cells_of, done, at_cell, behind_item, value_read, leads_to, held_of, form_read, kind_read, opcode_read};
ghost use Rattle.unpack_items.specs.Readers.{reader_of};

use crate::Reader;
use crate::opcode::{form_read, kind_read};
use cell::memory::load_at;
use cell::number::{add, multiply, shift_byte};
use cell::{Address, CellCount};
use pack_judging::kinds::class_of;
use pack_layout::{Class, ItemForm};

// The cell at an index, 0 behind the image.
fn cell_in(order: u8, image: &[u8], index: CellCount) -> u32
    ensures { result ≡ get_or (cells_of order image.now) index.0 0 }
{
    let at = 4 * (index.0 as usize);
    if image.len() < at + 4 {
        return 0;
    }
    load_at(order, image, at)
}

pub fn at_cell(order: u8, image: &[u8], index: CellCount) -> Reader
    requires { index.0 ≤ 8192 }
    ensures { reader_of result ≡ at_cell (cells_of order image.now) index.0 }
{
    let rest = cell_in(order, image, index);
    Reader {
        at: index,
        rest: rest,
        next: CellCount(index.0 + 1),
        first: true,
    }
}

// Whether a cell is read to its end by an item in the form g, with `above` above its opcode.
fn is_done(g: ItemForm, above: u32) -> bool
    ensures { result ≡ done g above }
{
    match g {
        ItemForm::Alone => above == 0,
        ItemForm::Immediate => true,
        ItemForm::InCell => above == 0,
    }
}

// The index behind an item's operand cell, if it has one.
fn past_operand(g: ItemForm, next: CellCount) -> CellCount
    requires { next.0 ≤ 8192 }
    ensures { result ≡ cell_count (next.0 + extra g) }
{
    match g {
        ItemForm::Alone => next,
        ItemForm::Immediate => next,
        ItemForm::InCell => CellCount(next.0 + 1),
    }
}

// Where the item after one in the form g is read.
pub fn behind_item(order: u8, image: &[u8], g: ItemForm, r: Reader) -> Reader
    requires { r.next.0 < 8192 }
    ensures { reader_of result ≡ behind_item (cells_of order image.now) g (reader_of r) }
{
    let at = r.at;
    let ep = r.next;
    let above = shift_byte(r.rest);
    let next = past_operand(g, ep);
    if is_done(g, above) {
        return at_cell(order, image, next);
    }
    Reader {
        at: at,
        rest: above,
        next: next,
        first: false,
    }
}

// The value of an item in the form g.
fn value_read(order: u8, image: &[u8], g: ItemForm, r: Reader) -> u32
    ensures { result ≡ value_read (cells_of order image.now) g (reader_of r) }
{
    match g {
        ItemForm::Alone => 0,
        ItemForm::Immediate => shift_byte(r.rest),
        ItemForm::InCell => {
            let next = r.next;
            cell_in(order, image, next)
        }
    }
}

// The address that a branch leads to: next the index of its EP value, v its value.
fn leads_to(base: Address, g: ItemForm, next: CellCount, v: u32) -> Address
    ensures { result ≡ address (leads_to base.0 g next.0 v) }
{
    match g {
        ItemForm::Alone => Address(0),
        ItemForm::Immediate => {
            let ep = add(base.0, multiply(4, next.0));
            Address(add(ep, multiply(4, v)))
        }
        ItemForm::InCell => Address(v),
    }
}

// An item as it is read: its form, its kind, and what it holds.
#[derive(Clone, Copy)]
pub struct ItemRead {
    pub form: ItemForm,
    pub kind: u8,
    pub held: u32,
}

// What an item of class c holds.
fn held_of(order: u8, image: &[u8], base: Address, c: Class, g: ItemForm, r: Reader) -> u32
    ensures { result ≡ held_of (cells_of order image.now) base.0 c g (reader_of r) }
{
    match c {
        Class::Plain => 0,
        Class::Literal => value_read(order, image, g, r),
        Class::Branch => {
            let next = r.next;
            let a = leads_to(base, g, next, value_read(order, image, g, r));
            a.0
        }
        Class::NoKind => 0,
    }
}

pub fn read_item(order: u8, image: &[u8], base: Address, r: Reader) -> ItemRead
    ensures { (result.form ≡ form_read (opcode_read (reader_of r))) × (result.kind ≡ kind_read result.form (opcode_read (reader_of r))) × (result.held ≡ held_of (cells_of order image.now) base.0 (class_of result.kind) result.form (reader_of r)) }
{
    let b = (r.rest % 256) as u8;
    let g = form_read(b);
    let kind = kind_read(g, b);
    let held = held_of(order, image, base, class_of(kind), g, r);
    ItemRead {
        form: g,
        kind: kind,
        held: held,
    }
}
