// The words of a command line. No clause says what words the system gives.
use office_base::{OutOfMemory, Words};
use std::alloc::Global;
use std::rt::Env;
use std::{env, io};

/// Returns the words after the program's name.
/// If the system gives none, or one of them is no text, there are no words: these spell no command.
pub fn words_of(rt: &(impl Env + AllocGlobal), alloc: Global) -> Result<Words, OutOfMemory> {
    let mut words = Words::new(alloc);
    match env::args(rt) {
        Ok(args) => {
            for word in args.skip(1) {
                words.push(word.as_str())?;
            }
            Ok(words)
        }
        Err(error) if error.kind() == io::ErrorKind::OutOfMemory => Err(OutOfMemory),
        Err(_) => Ok(words),
    }
}
