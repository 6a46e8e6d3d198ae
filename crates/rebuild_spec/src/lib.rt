// Replacement in trees, and what laying the rebuilt words down takes: definitions and laws, no code.
#![tactic(auto)]
