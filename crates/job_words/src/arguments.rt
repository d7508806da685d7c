//! The program's arguments as words.
use crate::words::Words;
use std::alloc::Global;
use std::env;
use std::env::Env;
use std::io::ErrorKind;
use written_replies::Status;

/// The arguments without the program's own name.
///
/// # Errors
///
/// `Usage` where one isn't UTF-8, since the words then have no meaning, and `Memory` where memory is
/// refused.
pub fn words_of(rt: &HostRuntime) -> Result<Words, Status> {
    let arguments = match env::args(rt) {
        Ok(arguments) => arguments,
        Err(e) if e.kind() == ErrorKind::OutOfMemory => return Err(Status::Memory),
        Err(_) => return Err(Status::Usage),
    };
    let mut words = Words::new(rt.alloc());
    for argument in arguments.skip(1) {
        if words.push(argument.as_bytes()).is_err() {
            return Err(Status::Memory);
        }
    }
    Ok(words)
}
