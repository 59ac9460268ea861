// Theory: two sheets that differ in one part may be compared by that part.
#![tactic(auto)]
