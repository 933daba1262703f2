// Tests of the kinds at their edges: keys, tallies, stations, and the words of a line.
#![tactic(auto)]

#[cfg(test)]
mod tests;
