// Program texts read into lists, and what is refused.
#![tactic(auto)]

#[cfg(test)]
mod texts;
