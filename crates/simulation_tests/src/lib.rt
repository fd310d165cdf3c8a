// Runs of small lines: the worked examples of the rules, and what two runs owe each other.
#![tactic(auto)]

#[cfg(test)]
mod examples;
#[cfg(test)]
mod helpers;
#[cfg(test)]
mod pairs;
#[cfg(test)]
mod sample;
