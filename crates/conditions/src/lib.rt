// What a request asks, what an accepted path satisfies, and what a refusal says, on the lent bytes: definitions and theorems alone.
#![tactic(auto)]
