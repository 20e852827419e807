// The public report's definitions stand in specs/; this crate has no code.
#![tactic(auto)]
