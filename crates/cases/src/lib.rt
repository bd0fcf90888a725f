//! Cases that the console cannot reach: memory of other lengths, damaged records, and full lines.
#![tactic(auto)]

#[cfg(test)]
mod central_cases;
#[cfg(test)]
mod damage;
#[cfg(test)]
mod layout_cases;
#[cfg(test)]
mod line_cases;
#[cfg(test)]
mod memory_cases;
#[cfg(test)]
mod refusal_cases;
#[cfg(test)]
mod ticket_cases;
