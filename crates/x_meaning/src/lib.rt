#![tactic(auto)]

// What a program means: see specs/.
