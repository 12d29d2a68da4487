// The definitions of draws, of settling on lists and of execution (specs/). The code is in the crates noise, fault_scan, choice, shots and
// faults, and in execution, runner and settling.
#![tactic(auto)]
