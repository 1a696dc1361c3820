// The programs that print a text of their standard input. What they read and print no clause can tell; what they make of their
// argument one can.
ghost use Rattle.std.specs.Prelude.{◌≡◌, ◌≢◌, ◌++◌, IsOk, IsErrAnd, Some, codes};
ghost use Rattle.anyhow.specs.Error.{HasMessage};

use crate::printed::{gate_lists, listing};
use anyhow::ensure;
use std::alloc::{AllocError, Global};
use std::env;
use std::io::Read;
use std::rt::Env;

// The only argument of a program asks for its help.
fn check_argument(name: &str, word: &str) -> anyhow::Result<()>
    ensures help { word.now ≡ codes "--help" → IsOk result }
    ensures other { word.now ≢ codes "--help" → IsErrAnd result (HasMessage (Some (name.now ++ codes " takes no argument but --help; its input is the standard input"))) }
{
    ensure!(
        word == "--help",
        "{name} takes no argument but --help; its input is the standard input"
    );
    Ok(())
}

// Prints the text of the standard input, or the help where it is asked for.
fn print_text<R, F>(rt: &R, name: &str, help: &str, text: F) -> anyhow::Result<()>
where
    R: Env + Input + Print + AllocGlobal,
    F: FnOnce(Global, &[u8]) -> Result<String, AllocError>,
    requires text { F.IsAlwaysCallable text }
{
    if let Some(word) = env::args(rt)?.nth(1) {
        check_argument(name, &word)?;
        rt.print(help)?;
        return Ok(());
    }
    let mut input = Vec::new(rt.alloc());
    rt.reader().read_to_end(&mut input)?;
    rt.print(text(rt.alloc(), &input)?)?;
    Ok(())
}

// The program that prints the listing of its input.
pub fn print_listing<R>(rt: &R, help: &str) -> anyhow::Result<()>
where
    R: Env + Input + Print + AllocGlobal,
{
    print_text(rt, "listing", help, listing)
}

// The program that prints the gate lists of its input.
pub fn print_gate_lists<R>(rt: &R, help: &str) -> anyhow::Result<()>
where
    R: Env + Input + Print + AllocGlobal,
{
    print_text(rt, "gates", help, gate_lists)
}
