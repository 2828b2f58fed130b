#![tactic(auto)]

// The walker: a table is walked as the source runs. See specs/.
