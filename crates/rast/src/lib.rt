// The Rust syntax tree of the printer and the functions on it, ported from Dafny's RAST: definitions and their laws, no code.
#![tactic(auto)]
