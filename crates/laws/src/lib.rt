#![tactic(auto)]

// What every layer's definitions and proofs share. No functions.
