// How many bytes a comparison of two names looks at: definitions and theorems alone. What is counted is the code of `labels`, `dns`, `ip`, `names` and `entries`.
#![tactic(auto)]
