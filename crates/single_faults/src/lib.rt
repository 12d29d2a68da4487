// The table of single faults: definitions and theorems.
#![tactic(auto)]
