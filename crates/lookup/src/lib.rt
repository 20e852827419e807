// What the machine asks of a node, from the lent tables: its types and their widths, paddings, where its value stands among the witness bits,
// and what is done around its two children. Each answers on every input: past the end of a table stands an arrow of record 0 to record 0,
// a type of width 0, a node of no kind.
#![tactic(auto)]

ghost use Rattle.std.specs.Prelude.{◌≡◌, get_or};
ghost use Rattle.scope.specs.Types.{type_records};
ghost use Rattle.scope.specs.Arrows.{arrow_records, source, target};
ghost use Rattle.lookup.specs.Lookup.{source_width, target_width, kept_width, padding_of, padding_in, around_in};

use table::Kind;

// How many cells of padding follow the tag of a sum's left part, and of its right part.
#[derive(Clone, Copy)]
pub struct Padding {
    pub left: u32,
    pub right: u32,
}

// A node with two children, by the widths of what is done around them: a pair's nothing; a comp's middle;
// a disconnect's source, the part of the left child's target that is kept and the part that is handed to the right child.
#[derive(Clone, Copy)]
pub enum Around {
    Pairing,
    Composing(u32),
    Disconnecting(u32, u32, u32),
}

// The type of node i's source.
#[tactic(auto, unfolding(scope::specs::Arrows::source))]
pub fn source_at(arrows: &[u8], i: u32) -> usize
    ensures { result ≡ source (arrow_records arrows.now) i }
{
    arrow::arrow_at(arrows, i).source
}

// The type of node i's target.
#[tactic(auto, unfolding(scope::specs::Arrows::target))]
pub fn target_at(arrows: &[u8], i: u32) -> usize
    ensures { result ≡ target (arrow_records arrows.now) i }
{
    arrow::arrow_at(arrows, i).target
}

// The width of node i's source.
pub fn source_width(arrows: &[u8], widths: &[u32], i: u32) -> u32
    ensures { result ≡ source_width widths.now (arrow_records arrows.now) i }
{
    common::entry_or(widths, source_at(arrows, i), 0)
}

// The width of node i's target.
pub fn target_width(arrows: &[u8], widths: &[u32], i: u32) -> u32
    ensures { result ≡ target_width widths.now (arrow_records arrows.now) i }
{
    common::entry_or(widths, target_at(arrows, i), 0)
}

// The width of what node i, a disconnect, keeps of its left child's target: of the left part of its own target.
pub fn kept_width(types: &[u8], widths: &[u32], arrows: &[u8], i: u32) -> u32
    ensures { result ≡ kept_width (type_records types.now) widths.now (arrow_records arrows.now) i }
{
    types::left_width(types, widths, target_at(arrows, i))
}

// The paddings of parts of these widths.
fn padding_of(left: u32, right: u32) -> Padding
    ensures { result ≡ padding_of left right }
{
    Padding {
        left: right.saturating_sub(left),
        right: left.saturating_sub(right),
    }
}

// The paddings of the sum that type k is.
pub fn padding_at(types: &[u8], widths: &[u32], k: usize) -> Padding
    ensures { result ≡ padding_in types.now widths.now k }
{
    let left = types::left_width(types, widths, k);
    let right = common::entry_or(widths, types::right_of(types, k), 0);
    padding_of(left, right)
}

// The position of node i's value among the witness bits; 0 past the end of the positions.
pub fn position_at(positions: &[u32], i: u32) -> u32
    ensures { result ≡ get_or positions.now i 0 }
{
    common::entry_or(positions, i as usize, 0)
}

// What is done around the children of node i, which is a comp, a pair or a disconnect.
#[tactic(auto, unfolding(crate::specs::Lookup::around_by))]
pub fn around_at(types: &[u8], widths: &[u32], nodes: &[u32], arrows: &[u8], i: u32) -> Around
    ensures { result ≡ around_in types.now widths.now nodes.now arrows.now i }
{
    let record = table::record_at(nodes, i);
    match table::kind_of(record) {
        Some(Kind::Pair) => Around::Pairing,
        Some(Kind::Comp) => Around::Composing(target_width(arrows, widths, record.first)),
        _ => {
            let source = source_width(arrows, widths, i);
            let kept = kept_width(types, widths, arrows, i);
            let handed = source_width(arrows, widths, record.second);
            Around::Disconnecting(source, kept, handed)
        }
    }
}
