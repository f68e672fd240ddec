//! Tests of `vl_pre`, `vl_lex` and `vl_front` through what they make public: texts with their clean text, tokens, designs
//! and faults.
#![tactic(auto)]

#[cfg(test)]
mod clean_texts;
#[cfg(test)]
mod designs;
#[cfg(test)]
mod tokens;
