// Why a line is not carried out.
use script::BadLine;
use std::io;

#[derive(Drop)]
pub enum Failure {
    // It is an error of the script.
    Script(BadLine),
    // An answer cannot be written.
    Write(io::Error),
}

impl From<BadLine> for Failure {
    fn from(bad: BadLine) -> Failure {
        Failure::Script(bad)
    }
}

impl From<io::Error> for Failure {
    fn from(error: io::Error) -> Failure {
        Failure::Write(error)
    }
}
