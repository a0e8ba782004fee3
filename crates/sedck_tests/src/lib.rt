//! Tests of what neither a clause nor a built program shows: streams that fail, and functions that no program calls or whose answers none
//! prints, such as those of the model. What programs print is tested by the rows in `tests/rows`.
#![tactic(auto)]

#[cfg(test)]
mod certificates;
#[cfg(test)]
mod counts;
#[cfg(test)]
mod engines;
#[cfg(test)]
mod expressions;
#[cfg(test)]
mod model;
#[cfg(test)]
mod plain;
#[cfg(test)]
mod texts;
#[cfg(test)]
mod verbs;
