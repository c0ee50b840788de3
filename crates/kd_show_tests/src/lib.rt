//! Tests of lines: that the lines of frames give the frames back, how replies are told, and where
//! bytes are no frame and lines have none.
#![tactic(auto)]

#[cfg(test)]
mod frames;
#[cfg(test)]
mod lines;
#[cfg(test)]
mod replies;
#[cfg(test)]
mod runs;
