#![tactic(auto)]

// The grammar of X: trees, their text, the reading automaton, depth and rows. Definitions and theorems, in specs/; no code.
