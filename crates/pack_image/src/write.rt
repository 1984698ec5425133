// Cells of an image, and their bytes in a lent output.
#![tactic(auto, unfolding(pack_layout::specs::Bytes::pack))]

ghost use Rattle.std.specs.Prelude.{true, false, ◌≡◌, ◌+◌, ◌*◌, ◌≤◌, ◌<◌, length};
ghost use Rattle.std.proofs.lemmas.List.Edits.{sets};
ghost use Rattle.cell.specs.Memory.{cell_bytes, cell_count};
ghost use Rattle.cell.specs.Choice.{if};
ghost use Rattle.pack_layout.specs.Kinds.{class_of, is_branch};
ghost use Rattle.pack_layout.specs.Bytes.{pack};
ghost use Rattle.pack_layout.specs.Flags.{bit};
ghost use Rattle.pack_layout.specs.Placed.{placed_at, marked_in};
ghost use Rattle.pack_layout.specs.Listing.{listed, Checked};
ghost use Rattle.pack_layout.specs.Layout.{extra, Laid};
ghost use Rattle.pack_layout.specs.Image.{byte_of, above};
ghost use Rattle.pack_layout.specs.Packing.{form_of, value_of, marks as marks_of, layout, image, image_cells};
ghost use Rattle.pack_layout.specs.Output.{written, joined_at, opened_at};

use cell::memory::store_at;
use cell::{Address, CellCount};
use pack_judging::entries::is_branch;
use pack_judging::kinds::class_of;
use pack_layout::{ItemForm, ItemNumber, PlacedItem};
use pack_rounds::mark::place_of;
use pack_rounds::measure::value_of;
use pack_rounds::place::form_of;

// Stores a cell at its index.
#[tactic(auto, using(cell::proofs::StoreLaws::store_sets))]
fn put_cell(order: u8, out: &mut [u8], index: CellCount, x: u32)
    requires { (index.0 ≤ 8192) × (4 * index.0 + 4 ≤ length out.old) }
    ensures { out.new ≡ sets out.old (4 * index.0) (cell_bytes order x) }
{
    let at = 4 * (index.0 as usize);
    store_at(order, out, at, x)
}

// An item's opcode.
fn byte_of(g: ItemForm, kind: u32) -> u32
    requires { kind < 256 }
    ensures { result ≡ byte_of g kind }
{
    match g {
        ItemForm::Alone => kind,
        ItemForm::Immediate => kind + 1,
        ItemForm::InCell => kind,
    }
}

// What stands above an item's opcode: v its value, rest what the next item put there.
fn above_of(g: ItemForm, v: u32, rest: u32) -> u32
    ensures { result ≡ above g false v rest }
{
    match g {
        ItemForm::Alone => rest,
        ItemForm::Immediate => v,
        ItemForm::InCell => rest,
    }
}

// A cell of an opcode and what stands above it.
fn pack_of(b: u32, x: u32) -> u32
    requires { b < 256 }
    ensures { result ≡ pack b x }
{
    b + 256 * (x % 16777216)
}

// The index of a branch's target.
fn target_of(kind: u8, x: u32, placed: &[PlacedItem]) -> CellCount
    requires { is_branch (class_of kind) ≡ true → x < length placed.now }
    ensures { result ≡ cell_count (if (is_branch (class_of kind)) (placed_at placed.now x).at.0 0) }
{
    if is_branch(kind) {
        return place_of(placed, ItemNumber(x));
    }
    CellCount(0)
}

// Stores the operand cell of an item that has one.
fn put_operand(order: u8, out: &mut [u8], g: ItemForm, next: CellCount, v: u32)
    requires { (next.0 ≤ 8192) × (4 * (next.0 + extra g) ≤ length out.old) }
    ensures { out.new ≡ joined_at g order out.old next.0 v }
{
    match g {
        ItemForm::Alone => {}
        ItemForm::Immediate => {}
        ItemForm::InCell => put_cell(order, out, next, v),
    }
}

// Stores the cell of an item that opens one. The answer stands above the item before it.
fn put_opened(order: u8, out: &mut [u8], opens: bool, at: CellCount, w: u32) -> u32
    requires { (at.0 ≤ 8192) × (4 * (at.0 + bit opens) ≤ length out.old) }
    ensures { (result ≡ if opens 0 w) × (out.new ≡ opened_at opens order out.old at.0 w) }
{
    if opens {
        put_cell(order, out, at, w);
        return 0;
    }
    w
}

// An item as it is packed: its form and its value.
#[derive(Clone, Copy)]
struct PackedItem {
    form: ItemForm,
    value: u32,
}

// The form and the value of an item with operand x.
fn pack_item(kind: u8, x: u32, item: PlacedItem, placed: &[PlacedItem], base: Address) -> PackedItem
    requires { (item.left ≤ 3) × (base.0 ≤ 16777216) × (is_branch (class_of kind) ≡ true → (x < length placed.now) × ((placed_at placed.now x).at.0 ≤ 8192)) }
    ensures { (result.form ≡ form_of (class_of kind) item.marked x item.left) × (result.value ≡ value_of (class_of kind) result.form x item.next.0 (if (is_branch (class_of kind)) (placed_at placed.now x).at.0 0) base.0) }
{
    let c = class_of(kind);
    let g = form_of(c, item.marked, x, item.left as u32);
    let to = target_of(kind, x, placed);
    let v = value_of(c, g, x, item.next, to, base);
    PackedItem { form: g, value: v }
}

// The open cell from an item's byte up.
fn word_of(kind: u8, g: ItemForm, v: u32, rest: u32) -> u32
    requires { kind < 255 }
    ensures { result ≡ pack (byte_of g kind) (above g false v rest) }
{
    let b = byte_of(g, kind as u32);
    pack_of(b, above_of(g, v, rest))
}

// Writes the image of a settled layout, from the last item to the first.
#[tactic(auto, using(crate::proofs::Writing::write_end))]
pub fn write_image(
    order: u8,
    base: Address,
    kinds: &[u8],
    operands: &[u32],
    placed: &[PlacedItem],
    out: &mut [u8],
)
    requires checked { Checked kinds.now operands.now }
    requires placed_len { length placed.now ≡ length kinds.now }
    requires marks_value { marked_in placed.now ≡ marks_of (listed kinds.now operands.now) }
    requires laid { Laid (layout (listed kinds.now operands.now)) placed.now (length kinds.now) }
    requires base_bound { (base.0 ≤ 16777216) × (4 * image_cells (listed kinds.now operands.now) ≤ length out.old) }
    ensures { out.new ≡ written order (image base.0 (listed kinds.now operands.now)) out.old }
{
    let mut rest: u32 = 0;
    for i in (0..kinds.len()).rev() {
        let item = placed[i];
        let kind = kinds[i];
        let p = pack_item(kind, operands[i], item, placed, base);
        let g = p.form;
        let v = p.value;
        put_operand(order, out, g, item.next, v);
        let w = word_of(kind, g, v, rest);
        rest = put_opened(order, out, item.left == 3, item.at, w);
    }
}
