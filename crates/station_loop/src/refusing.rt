//! Why an address can't be listened to.

use std::io::ErrorKind;
use std::net::{SocketAddr, TcpListener};

/// Why the system refuses an address, as it says when it is asked once more.
pub fn refusal_of(rt: &HostRuntime, address: &str) -> &'static str {
    let parsed: Result<SocketAddr, _> = address.parse();
    if parsed.is_err() {
        return "this is no address, such as 127.0.0.1:8000";
    }
    match TcpListener::bind(rt, address) {
        Ok(_) => "its connections can't be waited for",
        Err(error) => match error.kind() {
            ErrorKind::AddrInUse => "another program listens there",
            ErrorKind::AddrNotAvailable => "this machine hasn't this address",
            ErrorKind::PermissionDenied => "permission denied",
            _ => "the system refuses it",
        },
    }
}
