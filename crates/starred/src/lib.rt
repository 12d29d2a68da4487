// The starred cases of document 01 are a table in specs/, which computes to true.
#![tactic(auto)]
