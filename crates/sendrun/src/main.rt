// Reads a text that enters codewords and sends some of them, and writes the transfer that carries them.
// With `--file` it writes a whole file for a receiver instead, and its account to standard error.
#![tactic(auto)]

use anyhow::{Context, bail, ensure};
use refusal::Refusal;
use sender::{Account, count_lines, file_image, run};
use std::env;
use std::io::{Read, Write};
use std::str::FromStr;
use transfer::ClosedTransfer;

// Room for every transfer: 255 bits and the two words that close it, four bytes each.
const BUFFER: usize = 1028;

// What is written.
#[derive(Clone, Copy, Default)]
enum Output {
    // The account, and the words of the transfer.
    #[default]
    Account,
    // A whole file.
    File,
}

impl FromStr for Output {
    type Err = anyhow::Error;

    fn from_str(arg: &str) -> anyhow::Result<Output> {
        match arg {
            "--file" => Ok(Output::File),
            _ => bail!("usage: sendrun [--file] < TEXT"),
        }
    }
}

// What the arguments ask for.
fn wanted_output(rt: &HostRuntime) -> anyhow::Result<Output> {
    let mut output = Output::default();
    for arg in env::args(rt)?.skip(1) {
        output = arg.as_str().parse()?;
    }
    Ok(output)
}

// The bytes of a closed transfer.
fn bytes_of<'a>(closed: &ClosedTransfer, buffer: &'a [u8]) -> anyhow::Result<&'a [u8]> {
    buffer
        .get(..4 * closed.words())
        .context("the buffer is shorter than its transfer")
}

// Prints each line of the account, what was sent, and each word of the transfer.
fn print(
    rt: &HostRuntime,
    account: &Account,
    closed: &ClosedTransfer,
    bytes: &[u8],
) -> anyhow::Result<()> {
    for line in account.lines.as_slice() {
        println!(rt; "{line}")?;
    }
    let steps = closed.steps();
    let bits = closed.bits();
    let words = closed.words();
    println!(rt; "steps {steps} bits {bits} words {words}")?;
    for [a, b, c, d] in bytes.as_chunks::<4>().0 {
        println!(rt; "{a:02X}{b:02X}{c:02X}{d:02X}")?;
    }
    Ok(())
}

// Writes the file, unless a line was refused.
fn write(rt: &HostRuntime, account: &Account, bytes: &[u8]) -> anyhow::Result<()> {
    for line in account.lines.as_slice() {
        eprintln!(rt; "{line}")?;
    }
    ensure!(account.accepted(), "a line was refused: no file is written");
    let image = file_image(rt.alloc(), &account.table, bytes)?;
    rt.stdout().write_all(image.as_slice())?;
    Ok(())
}

fn send(rt: &HostRuntime) -> anyhow::Result<()> {
    let output = wanted_output(rt)?;
    let heap = rt.alloc();
    let mut text = Vec::new(heap);
    rt.stdin().read_to_end(&mut text)?;
    let mut buffer = vec![in heap; 0u8; BUFFER]?;
    let lines = Vec::with_capacity(heap, count_lines(text.as_slice()))?;
    let Ok(account) = run(text.as_slice(), buffer.as_mut_slice(), lines) else {
        bail!("no room for the account");
    };
    let closed = match &account.closed {
        Ok(closed) => closed,
        Err(fault) => {
            let refusal = Refusal::from(*fault);
            eprintln!(rt; "close no {refusal}")?;
            bail!("the transfer is not closed");
        }
    };
    let bytes = bytes_of(closed, buffer.as_slice())?;
    match output {
        Output::Account => print(rt, &account, closed, bytes),
        Output::File => write(rt, &account, bytes),
    }
}

fn main(rt: HostRuntime) -> anyhow::Result<()> {
    send(&rt)
}
