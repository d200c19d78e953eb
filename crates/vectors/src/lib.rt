// The worked examples that are tested rather than proved, as tables of calls and answers on the real code.
#![tactic(auto)]

#[cfg(test)]
mod calls;
#[cfg(test)]
mod limits;
#[cfg(test)]
mod looking;
#[cfg(test)]
mod media;
#[cfg(test)]
mod session;
