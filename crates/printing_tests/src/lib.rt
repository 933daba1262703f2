// Tests that words that are printed come out: no contract says when printing succeeds.
#![tactic(auto)]

#[cfg(test)]
mod tests;
