// Sheets that are made, called and looked at.
#![tactic(auto)]

#[cfg(test)]
mod books;
#[cfg(test)]
mod sheets;
