#![tactic(auto)]

// The front end: see specs/.
