//! The password that those have to know who send a station its streams.
ghost use Rattle.std.specs.Prelude.{◌≡◌, ◌<◌, IfOk, IfSome, Err, length, take};
ghost use Rattle.std.specs.Io.BufRead.{take_through};
ghost use Rattle.serve_sources.specs.Password.{first_line, password_bytes};

use fault_lines::Fault;
use serve_sources::Password;
use std::alloc::Global;
use std::fs::File;
use std::io::{self, BufRead, BufReader, Read};

/// The greatest number of bytes of a password file's first line.
const MOST_PASSWORD: usize = 4096;

/// The password that stands in the first line of a file. A longer line isn't cut, but refused.
///
/// It is `File` if the file can't be opened or read, or gives no password.
pub fn read_password(rt: &HostRuntime, file: &str) -> Result<Password, Fault> {
    match File::open(rt, file) {
        Ok(file) => password_of(rt.alloc(), file),
        Err(_) => Err(Fault::File),
    }
}

/// The password in the first line of a file, in however many pieces that comes.
fn password_of<R: Read + Drop>(alloc: Global, file: R) -> Result<Password, Fault>
    ensures first { IfOk result (λ password. IfSome (R.remaining file)
        (λ bytes. password_bytes password ≡ first_line (take_through 10 (take 4097 bytes)))) }
    ensures long { IfSome (R.remaining file) (λ bytes. 4096 < length (take_through 10 (take 4097 bytes)) → result ≡ Err Fault.File) }
{
    match first_line(alloc, file) {
        Ok(line) => password_in(alloc, line.as_slice()),
        Err(_) => Err(Fault::File),
    }
}

/// The first line of a file with its end, or as much of it as is longer than a password may be.
fn first_line<R: Read + Drop>(alloc: Global, file: R) -> io::Result<Vec<u8>>
    ensures line { IfOk result (λ line. IfSome (R.remaining file) (λ bytes. line.items ≡ take_through 10 (take 4097 bytes))) }
{
    let mut line = Vec::new(alloc);
    let mut file = BufReader::new(alloc, file.take(MOST_PASSWORD as u64 + 1))?;
    file.read_until(b'\n', &mut line)?;
    Ok(line)
}

/// The password in these bytes of a file, unless there are too many.
fn password_in(alloc: Global, bytes: &[u8]) -> Result<Password, Fault>
    ensures ok { IfOk result (λ password. password_bytes password ≡ first_line bytes.now) }
    ensures long { 4096 < length bytes.now → result ≡ Err Fault.File }
{
    if bytes.len() > MOST_PASSWORD {
        return Err(Fault::File);
    }
    match Password::new(alloc, bytes) {
        Ok(password) => Ok(password),
        Err(_) => Err(Fault::File),
    }
}
