// The dossier's header: its sections, its check (refusal 1), the count of a section, and a section as a part of the dossier.
// A section's bytes are reckoned in 64 bits, so that no count makes a size or an end wrap.
// Places go by the sections: each has to start where the one before it ends, which the check carries along.
#![tactic(auto)]

ghost use Rattle.std.specs.Prelude.{◌≡◌, ◌+◌, ◌*◌, ◌^◌, ◌≤◌, ◌<◌, length};
ghost use Rattle.limits.specs.Limits.{dossier_bytes};
ghost use Rattle.scope.specs.Header.{number, count, size, start, check_header};
ghost use Rattle.promise.specs.Parts.{part_of};
ghost use Rattle.common.specs.Answers.{check_of};
ghost use Rattle.header.specs.Sections.{index_of, section_part, opened_part};
ghost use Rattle.header.specs.Wrong.{WrongFirst};

use refusal::Refusal;

// The sections by name, in their order.
#[derive(Clone, Copy, Debug, PartialEq, Eq)]
pub enum SectionName {
    Types,
    Program,
    Arrows,
    Witness,
    Input,
    Hashes,
}

// How many sections there are.
const SECTIONS: usize = 6;

// The header's numbers: the version, a count and an offset for each section, and the total.
const NUMBERS: usize = 14;

// Number j of the header, with 0 for bytes past the end.
#[tactic(auto, using(crate::proofs::Rules::number_past), unfolding(scope::specs::Header::number))]
fn number(dossier: &[u8], j: usize) -> u32
    ensures { result ≡ number dossier.now j }
{
    if dossier.len() / 4 < j {
        return 0;
    }
    common::number_at(dossier, 4 * j)
}

// The count of section k: bytes of the program, bits of witness and input, else records; 0 past the dossier's end.
#[tactic(auto, using(crate::proofs::Rules::count_past), unfolding(scope::specs::Header::count))]
pub fn count(dossier: &[u8], k: usize) -> u32
    ensures { result ≡ count dossier.now k }
{
    if dossier.len() / 8 < k {
        return 0;
    }
    number(dossier, 2 * k + 1)
}

// The bytes of section k; 0 where there is no such section.
#[tactic(auto, unfolding(scope::specs::Header::size))]
fn size(dossier: &[u8], k: usize) -> u64
    ensures { (result ≡ size dossier.now k) × (result < 2 ^ 40) }
{
    let n = u64::from(count(dossier, k));
    match k {
        0 => limits::TYPE_BYTES as u64 * n,
        1 => n,
        2 => limits::ARROW_BYTES as u64 * n,
        3 | 4 => (n + 7) / 8,
        5 => limits::HASH_BYTES as u64 * n,
        _ => 0,
    }
}

// The first number against its rule; none where all keep theirs.
fn first_wrong(dossier: &[u8]) -> Option<usize>
    requires { length dossier.now ≤ dossier_bytes }
    ensures { WrongFirst dossier.now result }
{
    if number(dossier, 0) != 1 {
        return Some(0);
    }
    let types = count(dossier, 0) as usize;
    if types == 0 || limits::TYPE_COUNT < types {
        return Some(1);
    }
    let length = dossier.len() as u64;
    let mut place = limits::HEADER_BYTES as u64;
    for k in 0..SECTIONS {
        let end = place + size(dossier, k);
        if length < end {
            return Some(2 * k + 1);
        }
        if u64::from(number(dossier, 2 * k + 2)) != place {
            return Some(2 * k + 2);
        }
        place = end;
    }
    if u64::from(number(dossier, NUMBERS - 1)) != length || place != length {
        return Some(NUMBERS - 1);
    }
    None
}

// Whether a dossier's header keeps its rules; else the first wrong number, at its byte position.
pub fn check_header(dossier: &[u8]) -> Result<(), Refusal>
    ensures { check_of result ≡ check_header dossier.now }
{
    if dossier.len() < limits::HEADER_BYTES || limits::DOSSIER_BYTES < dossier.len() {
        return Err(Refusal::Header(0));
    }
    match first_wrong(dossier) {
        Some(j) => Err(Refusal::Header(4 * j as u32)),
        None => Ok(()),
    }
}

// Where section k has to start: after the header and the sections before it.
fn start(dossier: &[u8], k: usize) -> u64
    requires { k ≤ 6 }
    ensures { (result ≡ start dossier.now k) × (result < 2 ^ 43) }
{
    let mut place = limits::HEADER_BYTES as u64;
    for j in 0..k {
        place += size(dossier, j);
    }
    place
}

// Section k of a dossier whose header was checked; of any other, what of it lies within the dossier.
pub fn section(dossier: &[u8], k: usize) -> &[u8]
    ensures { part_of result ≡ section_part (part_of dossier.entry) k }
{
    let j = k.min(SECTIONS);
    common::part(
        dossier,
        start(dossier, j) as usize,
        size(dossier, j) as usize,
    )
}

// Section k, as that part of the dossier; empty where the header is refused or there is no such section.
pub fn opened(dossier: &[u8], k: usize) -> &[u8]
    ensures { part_of result ≡ opened_part (part_of dossier.entry) k }
{
    match check_header(dossier) {
        Ok(()) => section(dossier, k),
        Err(_) => common::part(dossier, 0, 0),
    }
}

impl SectionName {
    // The section's place in the order.
    pub fn index(self) -> usize
        ensures { result ≡ index_of self }
    {
        self as usize
    }

    // The section's count.
    pub fn count(self, dossier: &[u8]) -> u32
        ensures { result ≡ count dossier.now (index_of self) }
    {
        count(dossier, self.index())
    }

    // The section of a dossier whose header was checked; of any other, what of it lies within the dossier.
    pub fn of(self, dossier: &[u8]) -> &[u8]
        ensures { part_of result ≡ section_part (part_of dossier.entry) (index_of self) }
    {
        section(dossier, self.index())
    }

    // The section, as that part of the dossier; empty where the header is refused.
    pub fn opened(self, dossier: &[u8]) -> &[u8]
        ensures { part_of result ≡ opened_part (part_of dossier.entry) (index_of self) }
    {
        opened(dossier, self.index())
    }
}
