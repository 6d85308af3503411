//! What threads share, tried: the queues, the board and where threads wait, on one thread and on several.
#![tactic(auto)]

#[cfg(test)]
mod board_alone;
#[cfg(test)]
mod board_rows;
#[cfg(test)]
mod intake_rows;
mod laws;
#[cfg(test)]
mod passes;
#[cfg(test)]
mod queue_rows;
#[cfg(test)]
mod thread_rows;
#[cfg(test)]
mod waits;
#[cfg(test)]
mod workers;
