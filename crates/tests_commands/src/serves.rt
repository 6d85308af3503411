//! `lfiload serve` over a socket.

use crate::runs::{ONE_RET, ONE_RET_IMAGE, ONE_RET_REPORT, WELL, begin, connect, has_file, writes};
use std::io::Write;
use std::net::Net;
use std::thread::join;
use std::{fs, io};

/// Connects as soon as somebody listens at the path, and sends these bytes.
fn send<S: Net>(rt: &S, path: &str, bytes: &[u8]) -> io::Result<()> {
    let mut client = connect(rt, path)?;
    client.write_all(bytes)
}

#[test]
fn one_client(rt: HostRuntime) -> io::Result<()> {
    begin(&rt, "served.tmp", &[])?;
    let line = "lfiload serve --socket served.tmp/socket --connections 1 --out served.tmp";
    let (is_so, sent) = join(
        &rt,
        || writes(&rt, line, WELL, ONE_RET_REPORT.as_bytes(), ""),
        || send(&rt, "served.tmp/socket", ONE_RET.as_slice()),
    );
    let has_image = has_file(&rt, "served.tmp/module-00.img", ONE_RET_IMAGE.as_slice());
    let exists = fs::exists(&rt, "served.tmp/socket");
    assert!(rt; is_so && sent.is_ok() && has_image && matches!(exists, Ok(false)));
    fs::remove_dir_all(&rt, "served.tmp")
}
