#![tactic(auto)]

// HyENA over any block function: definitions and theorems only, no function.
