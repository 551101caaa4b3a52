//! How the program begins and ends beside its commands.
ghost use Rattle.std.specs.Prelude.{◌≡◌, ◌≢◌, [], Ok, Err, IfOk, IfErr, OnOk};
ghost use Rattle.std.specs.IoError.{error_kind};

use covd_core::Status;
use std::alloc::Global;
use std::io;
use std::io::ErrorKind;

/// The status of a text that was printed in place of a command.
pub fn ended(printed: &io::Result<()>) -> Status
    ensures done { OnOk printed.now (result ≡ Status.Done) }
    ensures failed { IfErr printed.now (λ _. result ≡ Status.WriteFault) }
{
    match printed {
        Ok(()) => Status::Done,
        Err(_) => Status::WriteFault,
    }
}

/// The words of a command. Words of which one is no text of UTF-8 are no command, as no words are.
pub fn given(alloc: Global, words: io::Result<Vec<String>>) -> Result<Vec<String>, Status>
    ensures read { IfOk words (λ all. result ≡ Ok all) }
    ensures memory { IfErr words
        (λ e. error_kind e ≡ ErrorKind.OutOfMemory → result ≡ Err Status.Memory) }
    ensures none { IfErr words
        (λ e. error_kind e ≢ ErrorKind.OutOfMemory → IfOk result (λ all. all.items ≡ [])) }
    ensures no_status { IfErr words
        (λ e. error_kind e ≢ ErrorKind.OutOfMemory → IfErr result (λ _. ⊥)) }
{
    match words {
        Ok(words) => Ok(words),
        Err(error) if error.kind() == ErrorKind::OutOfMemory => Err(Status::Memory),
        Err(_) => Ok(Vec::new(alloc)),
    }
}
