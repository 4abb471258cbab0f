//! The words of a command line.

ghost use Rattle.std.specs.Prelude.{◌≡◌, ◌≢◌, ◌⊎◌};
ghost use Rattle.clap.specs.Words.{kind_of};

use command_line::{Error, ErrorKind, exit_status, not_utf8};
use network_model::NoMemory;
use plans::{Fault, refuse};
use std::process::ExitCode;
use std::{env, io};

/// The words that the program was given, the first of them its name. Of one that is not UTF-8 it tells, and
/// answers the exit status. An error where a growth is refused.
pub fn given_words(rt: &HostRuntime) -> io::Result<Result<Vec<String>, u8>> {
    let alloc = rt.alloc();
    match env::args(rt) {
        Ok(words) => Ok(Ok(words.collect(alloc)?)),
        Err(error) if error.kind() == io::ErrorKind::InvalidData => {
            Ok(Err(print_error(rt, &not_utf8(alloc)?)))
        }
        Err(error) => Err(error),
    }
}

/// Ends the program with its exit status. Of an error, which comes where a growth is refused, it tells, and
/// ends with 2.
pub fn exit_code(rt: &HostRuntime, status: io::Result<u8>) -> ExitCode {
    let status = match status {
        Ok(status) => status,
        Err(_) => refuse(Fault::from(NoMemory), &mut rt.stderr()),
    };
    ExitCode::from(status)
}

/// Tells of an error of the command line, or gives the help that was asked for, and answers the exit
/// status: 0 where help was asked for, 2 where a growth was refused, else 1.
pub fn print_error(rt: &HostRuntime, error: &Error) -> u8
    ensures help { (kind_of error.now ≡ ErrorKind.DisplayHelp)
        ⊎ (kind_of error.now ≡ ErrorKind.DisplayVersion)
        → result ≡ 0 }
    ensures memory { kind_of error.now ≡ ErrorKind.OutOfMemory → result ≡ 2 }
    ensures mistake { kind_of error.now ≢ ErrorKind.DisplayHelp
        → kind_of error.now ≢ ErrorKind.DisplayVersion
        → kind_of error.now ≢ ErrorKind.OutOfMemory → result ≡ 1 }
{
    match error.kind() {
        ErrorKind::OutOfMemory => refuse(Fault::from(NoMemory), &mut rt.stderr()),
        _ => {
            let _ = error.print(rt);
            exit_status(error)
        }
    }
}
