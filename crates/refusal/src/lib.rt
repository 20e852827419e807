// Every way in which a run says no: one case for each number of the requirements' table, with its place. `number` and `place` give what the
// table says, `keeps_table` which ends keep the decoded table, and `Answer` is what a whole run says. Another refusal is one line more in
// each of the lists here and in specs/Numbers; besides it touches what gives it, and theory's lists of what a check may give.
#![tactic(auto)]

ghost use Rattle.std.specs.Prelude.{◌≡◌};
ghost use Rattle.refusal.specs.Numbers.{number_of, place_of, keeps_table};

use std::fmt;

#[derive(Clone, Copy, Debug, PartialEq, Eq)]
pub enum Refusal {
    // 1: dossier too short or too long, or a header number against the rules. Place: 0, or the byte position of the number.
    Header(u32),
    // 2: a type record breaks a rule or is too wide. Place: the record.
    TypeRecord(u32),
    // 3: the stream ended. Place: the node being read.
    StreamEnded(u32),
    // 4: a natural over its bound; a table with no record or too many. Place: the node being read; 0.
    Natural(u32),
    // 5: a jet. Place: the node being read.
    Jet(u32),
    // 6: not in canonical order. Place: how many nodes were done.
    CanonicalOrder(u32),
    // 7: a hidden node elsewhere than under a case, or last. Place: the parent, or the last node.
    HiddenElsewhere(u32),
    // 8: both children of a case hidden. Place: the case.
    BothHidden(u32),
    // 9: a hidden hash again, or a node equal to an earlier one. Place: the later node.
    NodeRepeated(u32),
    // 10: a whole byte left, or padding not zero. Place: the node count.
    Closing(u32),
    // 11: a disconnect with one child. Place: the first such node.
    OneChildDisconnect(u32),
    // 12: the count of arrows, or an arrow. Place: the node count, or the first such node.
    Arrow(u32),
    // 13: the count of hashes, or two unlike for one child. Place: the count given, or the entry.
    Hash(u32),
    // 14: cells, frames or cost over their limit. Place: 0, 1, 2.
    OverLimit(u32),
    // 15: witness bits short; left over, or leftover bits not zero. Place: the node; the node count.
    Witness(u32),
    // 16: the input is not just one value of the source. Place: 0.
    Input(u32),
    // 17: a store too short. Place: 0 cells, 1 frames, 2 answer, 3 nodes, 4 hashes.
    StoreShort(u32),
    // 18: a fail node was reached. Place: the fail node.
    FailReached(u32),
    // 19: a pruned branch was reached. Place: the assertion.
    PrunedReached(u32),
    // 21: a natural with a length above 31 in its code. Place: the node being read.
    Overlong(u32),
    // 26: a record of a lent node table breaks a rule. Place: the first such record.
    NodeRecord(u32),
}

// What a run says: the count of the output's compact bits, which stand in the answer store, or why there is none.
pub type Answer = Result<u32, Refusal>;

impl fmt::Display for Refusal {
    // The refusal's number, and its place.
    fn fmt<W: fmt::Write>(&self, f: &mut fmt::Formatter<W>) -> fmt::Result {
        let number = number(*self);
        let place = place(*self);
        write!(f, "{number} {place}")
    }
}

// The refusal's number in the requirements' table.
pub fn number(refusal: Refusal) -> u32
    ensures { result ≡ number_of refusal }
{
    match refusal {
        Refusal::Header(_) => 1,
        Refusal::TypeRecord(_) => 2,
        Refusal::StreamEnded(_) => 3,
        Refusal::Natural(_) => 4,
        Refusal::Jet(_) => 5,
        Refusal::CanonicalOrder(_) => 6,
        Refusal::HiddenElsewhere(_) => 7,
        Refusal::BothHidden(_) => 8,
        Refusal::NodeRepeated(_) => 9,
        Refusal::Closing(_) => 10,
        Refusal::OneChildDisconnect(_) => 11,
        Refusal::Arrow(_) => 12,
        Refusal::Hash(_) => 13,
        Refusal::OverLimit(_) => 14,
        Refusal::Witness(_) => 15,
        Refusal::Input(_) => 16,
        Refusal::StoreShort(_) => 17,
        Refusal::FailReached(_) => 18,
        Refusal::PrunedReached(_) => 19,
        Refusal::Overlong(_) => 21,
        Refusal::NodeRecord(_) => 26,
    }
}

// The refusal's place.
pub fn place(refusal: Refusal) -> u32
    ensures { result ≡ place_of refusal }
{
    match refusal {
        Refusal::Header(at) => at,
        Refusal::TypeRecord(at) => at,
        Refusal::StreamEnded(at) => at,
        Refusal::Natural(at) => at,
        Refusal::Jet(at) => at,
        Refusal::CanonicalOrder(at) => at,
        Refusal::HiddenElsewhere(at) => at,
        Refusal::BothHidden(at) => at,
        Refusal::NodeRepeated(at) => at,
        Refusal::Closing(at) => at,
        Refusal::OneChildDisconnect(at) => at,
        Refusal::Arrow(at) => at,
        Refusal::Hash(at) => at,
        Refusal::OverLimit(at) => at,
        Refusal::Witness(at) => at,
        Refusal::Input(at) => at,
        Refusal::StoreShort(at) => at,
        Refusal::FailReached(at) => at,
        Refusal::PrunedReached(at) => at,
        Refusal::Overlong(at) => at,
        Refusal::NodeRecord(at) => at,
    }
}

// Whether the node and hash stores keep the decoded table after the refusal. A store that is short at 3 or 4 has none yet.
pub fn keeps_table(refusal: Refusal) -> bool
    ensures { result ≡ keeps_table refusal }
{
    match refusal {
        Refusal::Header(_) => false,
        Refusal::TypeRecord(_) => false,
        Refusal::StreamEnded(_) => false,
        Refusal::Natural(_) => false,
        Refusal::Jet(_) => false,
        Refusal::CanonicalOrder(_) => false,
        Refusal::HiddenElsewhere(_) => false,
        Refusal::BothHidden(_) => false,
        Refusal::NodeRepeated(_) => false,
        Refusal::Closing(_) => false,
        Refusal::OneChildDisconnect(_) => false,
        Refusal::Arrow(_) => false,
        Refusal::Hash(_) => false,
        Refusal::OverLimit(_) => true,
        Refusal::Witness(_) => true,
        Refusal::Input(_) => true,
        Refusal::StoreShort(at) => at < 3,
        Refusal::FailReached(_) => true,
        Refusal::PrunedReached(_) => true,
        Refusal::Overlong(_) => false,
        Refusal::NodeRecord(_) => true,
    }
}
