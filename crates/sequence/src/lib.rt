//! Sequences of calls on one frame, by value: what they leave, answer and place. Definitions and laws.

#![tactic(auto)]
