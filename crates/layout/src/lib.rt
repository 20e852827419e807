// The machine over lent stores stands in specs/ and its laws in proofs/; this crate has no code.
#![tactic(auto)]
