// Equal text, equal tree: one theorem over any two encodings of sound types. Definitions and a proof, no code.
#![tactic(auto)]
