// Answers of reading and writing in 01's numbers, and what something holds, as a line says them.
use crate::digest::Digest;
use reader::PlanRead;
use refusal::Refusal;
use std::fmt;

// An answer of reading: the plan's numbers, or the refusal's.
#[derive(Clone, Copy)]
pub(crate) struct ReadAnswer(pub(crate) Result<PlanRead, Refusal>);

impl fmt::Display for ReadAnswer {
    fn fmt<W: fmt::Write>(&self, f: &mut fmt::Formatter<W>) -> fmt::Result {
        match self.0 {
            Ok(p) => write!(f, "plan {} {} {} {}", p.disks, p.served, p.unserved, p.left),
            Err(refusal) => write!(f, "{refusal}"),
        }
    }
}

// An answer of writing: the length of the text, or the refusal's numbers.
#[derive(Clone, Copy)]
pub(crate) struct WriteAnswer(pub(crate) Result<u64, Refusal>);

impl fmt::Display for WriteAnswer {
    fn fmt<W: fmt::Write>(&self, f: &mut fmt::Formatter<W>) -> fmt::Result {
        match self.0 {
            Ok(length) => write!(f, "length {length}"),
            Err(refusal) => write!(f, "{refusal}"),
        }
    }
}

// What something holds: that it is untouched, or its digest.
#[derive(Clone, Copy)]
pub(crate) struct Contents {
    pub(crate) digest: Digest,
    pub(crate) untouched: Digest,
}

impl fmt::Display for Contents {
    fn fmt<W: fmt::Write>(&self, f: &mut fmt::Formatter<W>) -> fmt::Result {
        if self.digest == self.untouched {
            write!(f, "untouched")
        } else {
            write!(f, "{:016x}", self.digest.0)
        }
    }
}
