// The requirements as definitions stand in specs/; this crate has no code.
#![tactic(auto)]
