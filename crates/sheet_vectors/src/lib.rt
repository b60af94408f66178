// Cases of sheets, saved files, runs of calls, whole jobs and the program's replies.
#![tactic(auto)]

#[cfg(test)]
mod file_cases;
#[cfg(test)]
mod file_tables;
#[cfg(test)]
mod law_cases;
#[cfg(test)]
mod replanted;
#[cfg(test)]
mod reply_cases;
#[cfg(test)]
mod sheet_cases;
#[cfg(test)]
mod whole_cases;
