// Trees and the words that they are written by: definitions and laws, no code.
#![tactic(auto)]
