use std::alloc::Global;
use std::env;
use std::env::{Env, FillError};
use std::io::ErrorKind;
use vf_io::NoMemory;

/// The arguments and the environment, with an empty text in place of the path that the program was called by: that path may
/// have bytes that are no text, and says nothing.
#[derive(Drop)]
struct Unnamed<'a, R: Env> {
    rt: &'a R,
}

impl<'a, R: Env> Env for Unnamed<'a, R> {
    fn arg(&self, i: usize, buffer: &mut [u8]) -> Result<usize, FillError> {
        if i == 0 {
            return Ok(0);
        }
        self.rt.arg(i, buffer)
    }

    fn var(&self, name: &str, buffer: &mut [u8]) -> Result<usize, FillError> {
        self.rt.var(name, buffer)
    }

    fn var_at(&self, i: usize, buffer: &mut [u8]) -> Result<usize, FillError> {
        self.rt.var_at(i, buffer)
    }
}

/// The words after the program's path. Where one of them is no text there are none: such a word is part of no command.
pub fn read_words<R: Env>(alloc: Global, rt: &R) -> Result<Vec<String>, NoMemory> {
    match env::args(&(Unnamed { rt }, alloc)) {
        Ok(words) => Ok(words.skip(1).collect(alloc)?),
        Err(error) if error.kind() == ErrorKind::OutOfMemory => Err(NoMemory),
        Err(_) => Ok(Vec::new(alloc)),
    }
}
