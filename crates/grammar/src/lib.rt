// The grammar of typed queries: definitions and theorems alone.
#![tactic(auto)]
