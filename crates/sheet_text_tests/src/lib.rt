//! Texts for the sheet reader, with the answers that it has to give. Each text is read into a table
//! of sentinels; the answer and every place of the table are compared.
#![tactic(auto)]

#[cfg(test)]
mod cases;
#[cfg(test)]
mod granted;
#[cfg(test)]
mod long;
#[cfg(test)]
mod order;
#[cfg(test)]
mod refused;
