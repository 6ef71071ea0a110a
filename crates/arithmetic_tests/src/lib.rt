// Tests of the arithmetic, with values worked out elsewhere.
#![tactic(auto)]

#[cfg(test)]
mod generics;
#[cfg(test)]
mod residues;
