//! The words of the command line that a program was given.
use std::alloc::AllocGlobal;
use std::env::Env;
use std::{env, io};

/// The words behind the program's name. One that is not UTF-8 is an error, and so is want of memory.
pub fn words_given<R: Env + AllocGlobal>(rt: &R) -> io::Result<Vec<String>> {
    let mut args = env::args(rt)?;
    let _program = args.next();
    Ok(args.collect(rt.alloc())?)
}
