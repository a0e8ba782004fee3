//! The model: what no clause says is that its functions answer, and within which budget.
mod matching;
mod rows;
mod steps;
