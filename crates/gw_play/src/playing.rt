//! A script from its reading to the exit status.

ghost use Rattle.std.specs.Prelude.{◌≡◌, ◌+◌, ◌≤◌, ◌^◌, IfOk, OnOk, IfSome, List, ◌⊎◌, string_bytes};
ghost use Rattle.std.specs.Io.KnownBytes.{IsAtEnd, Appends};
ghost use Rattle.gw_world.specs.declared.event.Answer.{Answer};
ghost use Rattle.gw_play.specs.Playing.{IsPlayed};
ghost use Rattle.gw_play.specs.inner.Playing.{IsOutcome};
ghost use Rattle.gw_play.specs.Printing.{answers_text};

use super::printing::{print_answers, print_bad_call, print_bad_line, print_world_fault};
use super::reading::{ReadFault, Source, read_all};
use super::replica::Held;
use gw_script::{ScriptFault, parse};
use gw_world::run;
use rep_model::Replica;
use std::alloc::{AllocError, Global};
use std::io::{self, Write};

/// Reads a script, runs it and prints what comes of it. The exit status is 0 where all was read,
/// run and written, and otherwise 1.
pub fn play<S: Source, W: Write>(alloc: Global, source: &mut S, writer: &mut W) -> u8
    ensures reads { S.reads source.new ≤ S.reads source.old + 2 ^ 24 }
    ensures ended { result ≡ 0 → IsAtEnd (S.remaining source.new) }
    ensures status { result ≤ 1 }
    // What is written is what the gateways answered, and nothing else.
    ensures printed { result ≡ 0 → IfSome (S.remaining source.old) (λ text. (answers : List Answer)
        × IsPlayed text answers × Appends (W.contents writer.old) (W.contents writer.new)
        (answers_text 0 answers)) }
{
    play_with::<Held, S, W>(alloc, source, writer)
}

/// The same with replicas of a kind.
pub fn play_with<R: Replica, S: Source, W: Write>(
    alloc: Global,
    source: &mut S,
    writer: &mut W,
) -> u8
    ensures reads { S.reads source.new ≤ S.reads source.old + 2 ^ 24 }
    ensures ended { result ≡ 0 → IsAtEnd (S.remaining source.new) }
    ensures status { result ≤ 1 }
    // What is written is what the gateways answered, and nothing else.
    ensures printed { result ≡ 0 → IfSome (S.remaining source.old) (λ text. (answers : List Answer)
        × IsPlayed text answers × Appends (W.contents writer.old) (W.contents writer.new)
        (answers_text 0 answers)) }
{
    let text = match read_all(alloc, source) {
        Ok(text) => text,
        Err(ReadFault::Memory) => return print("E3\n", writer, 1),
        Err(_) => return 1,
    };
    match outcome::<R>(alloc, text.as_slice()) {
        Ok((printed, status)) => print(printed.as_str(), writer, status),
        Err(_) => print("E3\n", writer, 1),
    }
}

/// What is printed for a script, and the exit status.
fn outcome<R: Replica>(alloc: Global, text: &[u8]) -> Result<(String, u8), AllocError>
    ensures { IfOk result (λ told. IsOutcome text.now (string_bytes told.0) told.1) }
{
    let script = match parse(alloc, text) {
        Ok(script) => script,
        Err(ScriptFault::Line { number }) => return Ok((print_bad_line(alloc, number)?, 1)),
        Err(ScriptFault::Call { number }) => return Ok((print_bad_call(alloc, number)?, 1)),
        Err(ScriptFault::Memory) => return Err(AllocError),
    };
    let ran = run::<R>(alloc, script.configs.as_slice(), script.events.as_slice());
    drop(script);
    match ran {
        Ok(world) => {
            let printed = print_answers(alloc, world.answers.as_slice());
            drop(world);
            Ok((printed?, 0))
        }
        Err(fault) => Ok((print_world_fault(alloc, fault)?, 1)),
    }
}

/// Writes a text, and gives the status, or 1 where the writing fails.
fn print<W: Write>(text: &str, writer: &mut W, status: u8) -> u8
    requires { status ≤ 1 }
    ensures status { (result ≡ status) ⊎ (result ≡ 1) }
    ensures written { result ≡ 0 → Appends (W.contents writer.old)
        (W.contents writer.new) text.now }
{
    match write_text(text, writer) {
        Ok(()) => status,
        Err(_) => 1,
    }
}

/// Writes a text.
fn write_text<W: Write>(text: &str, writer: &mut W) -> io::Result<()>
    ensures { OnOk result (Appends (W.contents writer.old) (W.contents writer.new) text.now) }
{
    writer.write_all(text.as_bytes())?;
    writer.flush()
}
