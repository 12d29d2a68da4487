// Shares of the main list of draws: definitions and theorems.
#![tactic(auto)]
