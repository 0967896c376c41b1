// Why there is no whole output.
use std::fmt;
use std::io::Error;

#[derive(Clone, Copy)]
pub(crate) enum Failure {
    // The end of the input was not seen.
    Unread(Error),
    // A write failed.
    Unwritten(Error),
}

// What is said on standard error behind the program's name.
impl fmt::Display for Failure {
    fn fmt<W: fmt::Write>(&self, f: &mut fmt::Formatter<W>) -> fmt::Result {
        match self {
            Failure::Unread(error) => write!(f, "standard input: {error}"),
            Failure::Unwritten(error) => write!(f, "standard output: {error}"),
        }
    }
}
