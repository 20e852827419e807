// What promises are stated with stands in specs/; this crate has no code.
#![tactic(auto)]
