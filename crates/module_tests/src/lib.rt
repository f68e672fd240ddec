//! Tests of `vl_module` and `vl_scope` through what they make public: token lists with their tree, and modules with and
//! without a static fault.
#![tactic(auto)]

#[cfg(test)]
mod faults;
#[cfg(test)]
mod trees;
