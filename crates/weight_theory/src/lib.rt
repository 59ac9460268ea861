// Theory: the weight of a term as forms, reckoned record by record while the term is read.
#![tactic(auto)]
