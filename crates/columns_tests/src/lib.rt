// Tests of choosers and workings, with values worked out elsewhere.
#![tactic(auto)]

#[cfg(test)]
mod choices;
#[cfg(test)]
mod panels;
#[cfg(test)]
mod refusals;
