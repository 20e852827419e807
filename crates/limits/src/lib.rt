// The limits of the requirements and the sizes of records, each named once.
// Code names these constants, definitions and proofs the names of specs/Limits; `limits` shows that the two lists are the same.
#![tactic(auto)]

ghost use Rattle.std.specs.Prelude.{◌≡◌};
ghost use Rattle.limits.specs.Limits.{every_limit};

pub const DOSSIER_BYTES: usize = 49_152;

pub const TYPE_COUNT: usize = 1_024;

pub const NODE_COUNT: usize = 4_096;

pub const TYPE_WIDTH: u32 = 32_768;

pub const CELL_COUNT: u32 = 262_144;

pub const FRAME_COUNT: u32 = 1_024;

pub const COST_LIMIT: u32 = 50_000_000;

pub const NODE_COST: u32 = 100;

pub const NATURAL_LENGTH: u32 = 31;

pub const WORD_MOST: u32 = 32;

pub const HEADER_BYTES: usize = 56;

pub const TYPE_BYTES: usize = 5;

pub const ARROW_BYTES: usize = 4;

pub const HASH_BYTES: usize = 32;

pub const FAIL_BYTES: usize = 64;

pub const NODE_NUMBERS: usize = 4;

pub const FRAME_NUMBERS: usize = 3;

// Every limit and size, in the order of the definitions.
pub fn every_limit() -> [u32; 17]
    ensures { result ≡ every_limit }
{
    [
        DOSSIER_BYTES as u32,
        TYPE_COUNT as u32,
        NODE_COUNT as u32,
        TYPE_WIDTH,
        CELL_COUNT,
        FRAME_COUNT,
        COST_LIMIT,
        NODE_COST,
        NATURAL_LENGTH,
        WORD_MOST,
        HEADER_BYTES as u32,
        TYPE_BYTES as u32,
        ARROW_BYTES as u32,
        HASH_BYTES as u32,
        FAIL_BYTES as u32,
        NODE_NUMBERS as u32,
        FRAME_NUMBERS as u32,
    ]
}
