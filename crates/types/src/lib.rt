// The type table: what a record is, the check of a table (refusals 4 and 2), the width of each type in cells, and how a value of it goes on.
// A record is a tag and the indices of its parts, which are earlier records; so one pass upwards fills both arrays,
// and no type is ever walked to its leaves. A type without padding has a mark, and its values are read as bits, all at once.
// Of the others a product with a part of width 0 says nothing that its other part does not say:
// the next record that matters is that part's, and readers of values step over such products by it.
#![tactic(auto)]

ghost use Rattle.std.specs.Prelude.{◌≡◌, [], ◌<◌, length, get_or};
ghost use Rattle.limits.specs.Limits.{type_count};
ghost use Rattle.scope.specs.Numbers.{any_below};
ghost use Rattle.scope.specs.Types.{type_records, type_at, same_type, parts_rule, is_unit, is_sum, is_product, left_at, right_at, is_word};
ghost use Rattle.scope.specs.Stages.{counted};
ghost use Rattle.common.specs.Answers.{check_of};
ghost use Rattle.types.specs.Tags.{tag_number, Numbered};
ghost use Rattle.types.specs.Table.{record_of, without_count, counted_types, type_table};
ghost use Rattle.types.specs.Records.{is_record, record_judged, parts_width, unpadded_from, next_from, record_next};

use refusal::Refusal;

// What a record is, numbered from 0.
#[derive(Clone, Copy, Debug, PartialEq, Eq)]
pub enum Tag {
    Unit,
    Sum,
    Product,
}

// A number that no tag has.
#[derive(Clone, Copy, Debug, PartialEq, Eq)]
pub struct UnknownTag(pub u8);

impl TryFrom<u8> for Tag {
    type Error = UnknownTag;

    ghost try_from_gives = { Numbered };

    fn try_from(number: u8) -> Result<Self, UnknownTag> {
        match number {
            0 => Ok(Tag::Unit),
            1 => Ok(Tag::Sum),
            2 => Ok(Tag::Product),
            _ => Err(UnknownTag(number)),
        }
    }
}

impl From<Tag> for u8 {
    ghost from_gives = { λ tag n. n ≡ tag_number tag };

    fn from(tag: Tag) -> u8 {
        tag as u8
    }
}

// What stands for a type without padding in place of a next record: the index of no record.
pub const UNPADDED: u16 = 65_535;

// A checked table: how many records there are, or why they are refused, and for each record the width of its type and its entry:
// UNPADDED, or the next record that matters. Where a record is refused the arrays end before it; entries of no record are 0.
#[derive(Drop)]
pub struct TypeTable {
    pub answer: Result<usize, Refusal>,
    pub widths: [u32; limits::TYPE_COUNT],
    pub next: [u16; limits::TYPE_COUNT],
}

// A record: the number of its tag, and its parts, which are indices of earlier records.
#[derive(Clone, Copy, PartialEq, Eq)]
pub struct TypeRecord {
    pub tag: u8,
    pub left: u16,
    pub right: u16,
}

// Record i; past the end of the table a record of no tag.
#[tactic(auto, using(crate::proofs::Records::record_in), unfolding(scope::specs::Types::type_record))]
pub fn record_at(types: &[u8], i: usize) -> TypeRecord
    ensures { result ≡ record_of (type_at (type_records types.now) i) }
{
    if types.len() / limits::TYPE_BYTES <= i {
        return TypeRecord {
            tag: 3,
            left: 0,
            right: 0,
        };
    }
    let at = i * limits::TYPE_BYTES;
    TypeRecord {
        tag: types[at],
        left: common::half_at(types, at + 1),
        right: common::half_at(types, at + 3),
    }
}

// Whether type j is of this tag and of these two parts.
#[tactic(auto, unfolding(crate::specs::Records::is_record, scope::specs::Numbers::every))]
fn is_record(types: &[u8], j: usize, tag: Tag, left: usize, right: usize) -> bool
    ensures { result ≡ is_record (type_records types.now) (tag_number tag) j left right }
{
    let own = record_at(types, j);
    own.tag == u8::from(tag) && common::index(own.left) == left && common::index(own.right) == right
}

// Whether type j is unit.
#[tactic(auto, unfolding(scope::specs::Types::is_unit))]
pub fn is_unit(types: &[u8], j: usize) -> bool
    ensures { result ≡ is_unit (type_records types.now) j }
{
    let own = record_at(types, j);
    own.tag == u8::from(Tag::Unit)
}

// Whether type j is the sum of these two.
#[tactic(auto, unfolding(crate::specs::Records::is_record, scope::specs::Types::is_sum))]
pub fn is_sum(types: &[u8], j: usize, left: usize, right: usize) -> bool
    ensures { result ≡ is_sum (type_records types.now) j left right }
{
    is_record(types, j, Tag::Sum, left, right)
}

// Whether type j is the product of these two.
#[tactic(auto, unfolding(crate::specs::Records::is_record, scope::specs::Types::is_product))]
pub fn is_product(types: &[u8], j: usize, left: usize, right: usize) -> bool
    ensures { result ≡ is_product (type_records types.now) j left right }
{
    is_record(types, j, Tag::Product, left, right)
}

// The left part of type j; record 0 past the table.
#[tactic(auto, unfolding(scope::specs::Types::left_at))]
pub fn left_of(types: &[u8], j: usize) -> usize
    ensures { result ≡ left_at (type_records types.now) j }
{
    let own = record_at(types, j);
    common::index(own.left)
}

// The right part of type j; record 0 past the table.
#[tactic(auto, unfolding(scope::specs::Types::right_at))]
pub fn right_of(types: &[u8], j: usize) -> usize
    ensures { result ≡ right_at (type_records types.now) j }
{
    let own = record_at(types, j);
    common::index(own.right)
}

// Whether type j is a sum of units.
#[tactic(auto, unfolding(scope::specs::Types::is_word, scope::specs::Numbers::every))]
fn is_bit(types: &[u8], j: usize) -> bool
    ensures { result ≡ is_word (type_records types.now) 0 j }
{
    let left = left_of(types, j);
    let right = right_of(types, j);
    is_sum(types, j, left, right) && is_unit(types, left) && is_unit(types, right)
}

// Whether type j is the very type of words of 2^k bits: down k products of equal parts to a sum of units.
#[tactic(auto, using(crate::proofs::Words::word_down, crate::proofs::Words::word_stops))]
pub fn is_word(types: &[u8], k: u32, j: usize) -> bool
    ensures { result ≡ is_word (type_records types.now) k j }
{
    let mut at = j;
    for _ in 0..k {
        let part = left_of(types, at);
        if !is_product(types, at, part, part) {
            return false;
        }
        at = part;
    }
    is_bit(types, at)
}

// The width of the left part of type j, by the widths of a table.
pub fn left_width(types: &[u8], widths: &[u32], j: usize) -> u32
    ensures { result ≡ get_or widths.now (left_at (type_records types.now) j) 0 }
{
    common::entry_or(widths, left_of(types, j), 0)
}

// Whether the parts are as the tag asks: unit's are 0, a sum's and a product's are earlier records than i.
#[tactic(auto, unfolding(scope::specs::Types::parts_rule, scope::specs::Numbers::every))]
fn parts_fit(tag: Tag, left: usize, right: usize, i: usize) -> bool
    ensures { result ≡ parts_rule [] i (tag_number tag) left right }
{
    match tag {
        Tag::Unit => left == 0 && right == 0,
        Tag::Sum | Tag::Product => left < i && right < i,
    }
}

// The width of a record of this tag whose parts have these widths.
fn parts_width(tag: Tag, left: u32, right: u32) -> u64
    ensures { result ≡ parts_width (tag_number tag) left right }
{
    let a = common::wide(left);
    let b = common::wide(right);
    match tag {
        Tag::Unit => 0,
        Tag::Sum => 1 + a.max(b),
        Tag::Product => a + b,
    }
}

// Whether an earlier record equals record i.
fn repeated(types: &[u8], i: usize) -> bool
    ensures { result ≡ any_below i (same_type (type_records types.now) i) }
{
    let own = record_at(types, i);
    (0..i).any(|j| record_at(types, j) == own)
}

// The width of record i's type, where the widths of the earlier records are known; none where the record breaks a rule.
#[tactic(auto, using(crate::proofs::Records::rule_any, crate::proofs::Records::rule_of_no_tag))]
fn judge(types: &[u8], i: usize, widths: &[u32]) -> Option<u32>
    ensures { result ≡ record_judged (type_records types.now) widths.now i }
{
    let own = record_at(types, i);
    let Ok(tag) = Tag::try_from(own.tag) else {
        return None;
    };
    let left = common::index(own.left);
    let right = common::index(own.right);
    if !parts_fit(tag, left, right, i) {
        return None;
    }
    let width = parts_width(
        tag,
        common::entry_or(widths, left, 0),
        common::entry_or(widths, right, 0),
    );
    if common::wide(limits::TYPE_WIDTH) < width || repeated(types, i) {
        return None;
    }
    Some(width as u32)
}

// Whether no value of a record of this tag has padding, of the widths and the entries of its parts.
#[tactic(auto, unfolding(scope::specs::Numbers::every))]
fn unpadded(tag: Tag, a: u32, b: u32, left: u16, right: u16) -> bool
    ensures { result ≡ unpadded_from (tag_number tag) a b left right }
{
    match tag {
        Tag::Unit => true,
        Tag::Sum => left == UNPADDED && right == UNPADDED && a == b,
        Tag::Product => left == UNPADDED && right == UNPADDED,
    }
}

// The entry of a record of this tag, of the widths and the entries of its parts and of its own index.
fn entry(tag: Tag, a: u32, b: u32, left: u16, right: u16, own: u16) -> u16
    ensures { result ≡ next_from (tag_number tag) a b left right own }
{
    if unpadded(tag, a, b, left, right) {
        return UNPADDED;
    }
    match tag {
        Tag::Product if a == 0 => right,
        Tag::Product if b == 0 => left,
        _ => own,
    }
}

// The entry of record i, where the widths and the entries of the earlier records are known; a record of no tag is read as a product.
fn next_record(types: &[u8], i: usize, widths: &[u32], next: &[u16]) -> u16
    requires { i < type_count }
    ensures { result ≡ record_next (type_at (type_records types.now) i) widths.now next.now i }
{
    let own = record_at(types, i);
    let left = common::index(own.left);
    let right = common::index(own.right);
    let a = common::entry_or(widths, left, 0);
    let b = common::entry_or(widths, right, 0);
    let x = common::entry_or(next, left, 0);
    let y = common::entry_or(next, right, 0);
    let tag = Tag::try_from(own.tag).unwrap_or(Tag::Product);
    entry(tag, a, b, x, y, i as u16)
}

// The check of a lent type table.
#[tactic(auto, using(crate::proofs::Check::check_ways))]
pub fn check_types(types: &[u8]) -> TypeTable
    ensures { result ≡ type_table types.now }
{
    let mut widths = [0u32; limits::TYPE_COUNT];
    let mut next = [0u16; limits::TYPE_COUNT];
    let count = types.len() / limits::TYPE_BYTES;
    if count == 0 || limits::TYPE_COUNT < count {
        return TypeTable {
            answer: Err(Refusal::Natural(0)),
            widths,
            next,
        };
    }
    for i in 0..count {
        let Some(width) = judge(types, i, &widths) else {
            return TypeTable {
                answer: Err(Refusal::TypeRecord(i as u32)),
                widths,
                next,
            };
        };
        next[i] = next_record(types, i, &widths, &next);
        widths[i] = width;
    }
    TypeTable {
        answer: Ok(count),
        widths,
        next,
    }
}

// The table has a record, and not too many (4).
#[tactic(auto, using(crate::proofs::Records::length_records))]
pub fn type_count(types: &[u8]) -> Result<(), Refusal>
    ensures { check_of result ≡ counted (length (type_records types.now)) type_count }
{
    common::check_count(types.len() / limits::TYPE_BYTES, limits::TYPE_COUNT)
}

// What the check of a table said, without the count of its records.
pub fn without_count(answer: Result<usize, Refusal>) -> Result<(), Refusal>
    ensures { check_of result ≡ without_count answer }
{
    answer.map(|_| ())
}

// The table keeps its rules (2), after its count (4).
pub fn types_hold(types: &[u8]) -> Result<(), Refusal>
    ensures { check_of result ≡ counted_types types.now }
{
    without_count(check_types(types).answer)
}
