//! Examples of the rules, tried on the library.
#![tactic(auto)]

#[cfg(test)]
mod broken_tables;
#[cfg(test)]
mod files;
#[cfg(test)]
mod gradings;
#[cfg(test)]
mod locating;
#[cfg(test)]
mod measures;
#[cfg(test)]
mod reports;
#[cfg(test)]
mod survey_words;
#[cfg(test)]
mod surveys;
#[cfg(test)]
mod tables;
