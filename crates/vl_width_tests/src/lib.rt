//! Tests of `vl_width` through what it makes public: texts of expressions with what they are worth, or with their fault.
#![tactic(auto)]

#[cfg(test)]
mod constants;
#[cfg(test)]
mod sample;
