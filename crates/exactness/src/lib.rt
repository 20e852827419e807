// The theorems that the checks accept exactly what the report says stand in proofs/, what they speak of in specs/; this crate has no code.
#![tactic(auto)]
