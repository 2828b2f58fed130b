#![tactic(auto)]

// The simulation: the image runs as the source does. See specs/.
