//! Choices among nodes: `a ? b : c ? d : e`.
//!
//! Below: `vl_nodes` (the builder of nodes). Above: what makes nodes of expressions, and of conditions one after another.
//! Promise: `among` answers a node that is worth the value of the first choice whose condition holds, or the last value where none does, and
//! reads what they all read (`specs/Choices`).
//! Not said: that memory is enough.
#![tactic(auto)]

pub mod choices;
