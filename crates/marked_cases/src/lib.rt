// Document 01's whole example and its marked cases: one theorem about the definitions that the public calls' contracts cite. Definitions and a proof, no code.
#![tactic(auto)]
