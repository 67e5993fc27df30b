// How many bytes a reading of a certificate looks at: definitions and theorems alone. What is counted is the code of `der`, `parts`, `values`, `bits`, `extensions`, `envelope` and `cert`.
#![tactic(auto)]
