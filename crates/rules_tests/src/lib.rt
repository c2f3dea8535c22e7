//! Tests of the rules, boards, cut places, symmetries and win bounds, on small boards whose answers
//! were found by hand.
#![tactic(auto)]

#[cfg(test)]
mod boards;
#[cfg(test)]
mod bounds;
#[cfg(test)]
mod bugs;
#[cfg(test)]
mod grids;
#[cfg(test)]
mod hands;
#[cfg(test)]
mod hives;
#[cfg(test)]
mod keepers;
#[cfg(test)]
mod leaves;
#[cfg(test)]
mod masks;
#[cfg(test)]
mod mosquitoes;
#[cfg(test)]
mod numbers;
#[cfg(test)]
mod stacks;
#[cfg(test)]
mod symmetries;
#[cfg(test)]
mod throws;
#[cfg(test)]
mod worths;
