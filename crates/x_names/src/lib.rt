#![tactic(auto)]

// Names: see specs/.
