// Books and texts at the limits and one past them, and what is refused there.
#![tactic(auto)]

#[cfg(test)]
mod books;
#[cfg(test)]
mod made;
#[cfg(test)]
mod texts;
