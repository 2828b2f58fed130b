#![tactic(auto)]

// The translation rules: see specs/.
