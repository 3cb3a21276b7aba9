// Why a page was not read to its end, or its records not handed on.
use std::error::Error;
use std::{fmt, io};

#[derive(Clone, Copy, Debug)]
pub enum PageError {
    Input(io::Error),
    Output(io::Error),
}

impl fmt::Display for PageError {
    fn fmt<W: fmt::Write>(&self, f: &mut fmt::Formatter<W>) -> fmt::Result {
        match self {
            PageError::Input(error) => write!(f, "standard input: {error}"),
            PageError::Output(error) => write!(f, "standard output: {error}"),
        }
    }
}

impl Error for PageError {}
