//! Certificates: as bytes, and as they are told.
use crate::refused::print_rule;
use crate::routes::print_links_of;
use anyhow::anyhow;
use boards::Board;
use certificates::certificate::Certificate;
use certificates::reading::read;
use networks::network::Network;
use std::fs;

// The most bytes of a certificate.
const MOST_BYTES: usize = 1042;

/// Prints the fields of a certificate, a line for each.
pub fn print_fields(rt: &HostRuntime, certificate: &Certificate) -> anyhow::Result<()> {
    let circuit = certificate.circuit();
    let root = certificate.root();
    let target = certificate.target();
    let metres = certificate.metres();
    let poles = certificate.poles();
    println!(rt; "circuit {circuit}")?;
    println!(rt; "root {root}")?;
    println!(rt; "target {target}")?;
    println!(rt; "metres {metres}")?;
    println!(rt; "poles {poles}")?;
    print_links_of(rt, certificate.one(), certificate.two())
}

/// Prints the fields of the certificate that bytes write, or why they are none.
pub fn print_certificate(rt: &HostRuntime, bytes: &[u8]) -> anyhow::Result<()> {
    match read(bytes) {
        Ok(certificate) => print_fields(rt, &certificate),
        Err(fault) => print_rule(rt, fault.into()),
    }
}

/// Prints bytes as pairs of digits, 32 bytes to a line.
pub fn print_bytes(rt: &HostRuntime, bytes: &[u8]) -> anyhow::Result<()> {
    for line in bytes.chunks(32) {
        let digits = hex::encode(rt.alloc(), line)?;
        println!(rt; "{digits}")?;
    }
    Ok(())
}

// Prints the bytes of a certificate, writes them to a file if one is named, reads them back and prints the fields.
fn print_written(rt: &HostRuntime, bytes: &[u8], file: Option<&str>) -> anyhow::Result<()> {
    print_bytes(rt, bytes)?;
    if let Some(file) = file {
        fs::write(rt, file, bytes)?;
        let count = bytes.len();
        println!(rt; "{count} bytes written to {file}")?;
    }
    print_certificate(rt, bytes)
}

/// Prints the certificate of a confirmed circuit, and writes it to a file if one is named; or prints why it is refused.
pub fn print_issued<N: Network>(
    rt: &HostRuntime,
    board: &Board<N>,
    circuit: u8,
    file: Option<&str>,
) -> anyhow::Result<()> {
    let mut buffer = [0u8; MOST_BYTES];
    match board.certificate(circuit, &mut buffer) {
        Ok(count) => match buffer.get(..count) {
            Some(bytes) => print_written(rt, bytes, file),
            None => Err(anyhow!("a certificate has too many bytes")),
        },
        Err(refusal) => print_rule(rt, refusal.into()),
    }
}
