// The definition of a run's reply (specs/). The code is in the crates job_shape and runner.
#![tactic(auto)]
