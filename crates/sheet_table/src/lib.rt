// Theory: what reading a sheet leaves in the table of its parts.
#![tactic(auto)]
