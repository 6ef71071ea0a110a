// Tests of sets, with values worked out elsewhere.
#![tactic(auto)]

#[cfg(test)]
mod batches;
#[cfg(test)]
mod helpers;
#[cfg(test)]
mod refused;
#[cfg(test)]
mod schemes;
#[cfg(test)]
mod sealed;
#[cfg(test)]
mod sizes;
