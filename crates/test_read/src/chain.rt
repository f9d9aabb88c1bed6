//! Pages taken into a chain of links, one by one, and the result.
use link_chain::{Chain, WalkFault, take_pages};
use std::alloc::Global;
use std::io::{self, Write};

/// Takes the pages into a chain, up to the first fault.
pub fn check_chain<W: Write>(alloc: Global, bytes: &[u8], output: &mut W) -> io::Result<bool> {
    let mut chain = Chain::new(alloc);
    let walk = take_pages(&mut chain, bytes);
    writeln!(output, "chain {}", walk.end)?;
    match walk.fault {
        None => write_unfinished(chain.unfinished(), output),
        Some(fault) => write_fault(walk.end, &fault, output),
    }
}

/// Writes the serial of a stream whose last packet goes on at the end, and returns whether there is none.
fn write_unfinished<W: Write>(unfinished: Option<u32>, output: &mut W) -> io::Result<bool> {
    if let Some(serial) = unfinished {
        writeln!(output, "unfinished {serial}")?;
    }
    Ok(unfinished.is_none())
}

fn write_fault<W: Write>(end: usize, fault: &WalkFault, output: &mut W) -> io::Result<bool> {
    let (code, name) = match fault {
        WalkFault::Page(fault) => (fault.code(), fault.name()),
        WalkFault::Chain(fault) => (fault.code(), fault.name()),
    };
    writeln!(output, "fault {end} {code} {name}")?;
    Ok(false)
}
