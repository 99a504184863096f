// Names with other letters: definitions and laws alone.

#![tactic(auto)]
