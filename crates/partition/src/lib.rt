//! The partition of a map into varblocks, as definitions and laws: every cell is in exactly one varblock, or in none and empty.

#![tactic(auto)]
