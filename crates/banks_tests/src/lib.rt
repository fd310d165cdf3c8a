// Tests of the banks, in a crate of their own.
#![tactic(auto)]

#[cfg(test)]
mod firings;
#[cfg(test)]
mod kinds;
