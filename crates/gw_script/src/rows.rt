//! Calls that come to a gateway together: a line that begins them, and a line for each.

ghost use Rattle.std.specs.Prelude.{◌≡◌, ◌≢◌, ◌+◌, ◌<◌, ◌≤◌, ◌^◌, ◌↔◌, ℕ, true, Err, IfOk, MatchOption, codes, length, map, take, vec_len};
ghost use Rattle.octets.specs.Decimal.{IsNumber};
ghost use Rattle.gw_world.specs.declared.event.Call.{Call};
ghost use Rattle.gw_world.specs.Field.{by_itself, gateway_of_event};
ghost use Rattle.gw_script.specs.Rows.{SaysRow, IsRowLine, SpellsCall, SpellCalls};
ghost use Rattle.gw_script.specs.inner.Rows.{IsNoCall, IsShort};

use super::command::{Command, cut, read_command};
use super::fault::{LineFault, ScriptFault};
use super::number::{number, number_u8};
use gw_world::{Call, Event};
use octets::NoMemory;
use std::alloc::Global;

/// A number that is not 0.
fn number_from_one(text: &[u8]) -> Option<u64>
    ensures { MatchOption result ((n : ℕ) → ¬ (IsNumber 64 text.now n × (n ≢ 0)))
        (λ n. IsNumber 64 text.now n × (n ≢ 0)) }
{
    match number(text) {
        Some(0) => None,
        Some(number) => Some(number),
        None => None,
    }
}

/// Whether the text is the word in front of calls that come together.
fn is_together(text: &[u8]) -> bool
    ensures { (result ≡ true) ↔ (text.now ≡ codes "together") }
{
    text == b"together".as_slice()
}

/// The gateway that calls come to, and how many, if the fields say that calls come together.
fn row_said(fields: &[&[u8]]) -> Option<(u8, u64)>
    ensures { MatchOption result
        ((gateway count : ℕ) → ¬ (SaysRow (map (λ field. field.now) fields.now) gateway count))
        (λ row. SaysRow (map (λ field. field.now) fields.now) row.0 row.1) }
{
    let [word, gateway, many] = fields else {
        return None;
    };
    if !is_together(word) {
        return None;
    }
    match (number_u8(gateway), number_from_one(many)) {
        (Some(gateway), Some(count)) => Some((gateway, count)),
        _ => None,
    }
}

/// The gateway that calls come to, and how many, if the line says that calls come together.
pub fn row_of(alloc: Global, line: &[u8]) -> Result<Option<(u8, u64)>, NoMemory>
    ensures { IfOk result (λ read. MatchOption read
        ((gateway count : ℕ) → ¬ (IsRowLine line.now gateway count))
        (λ row. IsRowLine line.now row.0 row.1)) }
{
    let fields = cut(alloc, line, b' ')?;
    Ok(row_said(fields.as_slice()))
}

/// The event as a call of several, if it is one at this gateway.
fn call_of(event: Event, gateway: u8) -> Option<Call>
    ensures { MatchOption result ((call : Call) → event ≢ by_itself gateway call)
        (λ call. event ≡ by_itself gateway call) }
{
    if event.gateway() == gateway {
        as_call(event)
    } else {
        drop(event);
        None
    }
}

/// The event as a call of several, if it is one.
fn as_call(event: Event) -> Option<Call>
    ensures { MatchOption result ((call : Call) → event ≢ by_itself (gateway_of_event event) call)
        (λ call. event ≡ by_itself (gateway_of_event event) call) }
{
    match event {
        Event::Frame {
            gateway: _gateway,
            from,
            bytes,
            now,
        } => Some(Call::Frame { from, bytes, now }),
        other => {
            let call = short_call(&other);
            drop(other);
            call
        }
    }
}

/// The event as a call of several that holds no octets, if it is one.
fn short_call(event: &Event) -> Option<Call>
    ensures { MatchOption result ((call : Call) → IsShort call
        → event.now ≢ by_itself (gateway_of_event event.now) call)
        (λ call. event.now ≡ by_itself (gateway_of_event event.now) call) }
{
    match event {
        Event::Tick { now, .. } => Some(Call::Tick { now: *now }),
        Event::Take { delta, .. } => Some(Call::Take { delta: *delta }),
        _ => None,
    }
}

/// The call at a gateway that a line spells.
fn read_call(alloc: Global, gateway: u8, line: &[u8]) -> Result<Call, LineFault>
    ensures ok { IfOk result (SpellsCall gateway line.now) }
    ensures refused { result ≡ Err LineFault.NotACommand → (call : Call)
        → SpellsCall gateway line.now call → ⊥ }
{
    let event = match read_command(alloc, line) {
        Ok(Command::Happens(event)) => event,
        Ok(other) => {
            drop(other);
            return Err(LineFault::NotACommand);
        }
        Err(fault) => return Err(fault),
    };
    match call_of(event, gateway) {
        Some(call) => Ok(call),
        None => Err(LineFault::NotACommand),
    }
}

/// The call at a gateway that the line of this number spells.
fn call_at(alloc: Global, gateway: u8, line: &[u8], number: usize) -> Result<Call, ScriptFault>
    ensures ok { IfOk result (SpellsCall gateway line.now) }
    ensures err { (k : ℕ) → result ≡ Err (ScriptFault.Call k) → (k ≡ number)
        × ((call : Call) → SpellsCall gateway line.now call → ⊥) }
    ensures other { (k : ℕ) → result ≡ Err (ScriptFault.Line k) → ⊥ }
{
    match read_call(alloc, gateway, line) {
        Ok(call) => Ok(call),
        Err(LineFault::NotACommand) => Err(ScriptFault::Call { number }),
        Err(LineFault::Memory) => Err(ScriptFault::Memory),
    }
}

/// The calls at a gateway that the first of these lines spell, so many of them. In front of these
/// lines there are `before` others. A line that is not there spells no call.
pub fn calls_of(
    alloc: Global,
    lines: &[&[u8]],
    gateway: u8,
    count: u64,
    before: usize,
) -> Result<Vec<Call>, ScriptFault>
    requires { before + length lines.now < 2 ^ 63 }
    ensures count { IfOk result (λ calls. vec_len calls ≡ count) }
    ensures some { IfOk result (λ calls. vec_len calls ≤ length lines.now) }
    ensures ok { IfOk result (λ calls. SpellCalls gateway
        (take count (map (λ line. line.now) lines.now)) calls.items) }
    // The first line is told that spells none.
    ensures err { (k : ℕ) → result ≡ Err (ScriptFault.Call k)
        → IsNoCall gateway count (map (λ line. line.now) lines.now) before k }
    ensures other { (k : ℕ) → result ≡ Err (ScriptFault.Line k) → ⊥ }
{
    let mut calls = Vec::new(alloc);
    for line in lines {
        let read = calls.len();
        if read as u64 == count {
            return Ok(calls);
        }
        let call = match call_at(alloc, gateway, line, before + read + 1) {
            Ok(call) => call,
            Err(fault) => return Err(fault),
        };
        calls.push(call)?;
    }
    let read = calls.len();
    if read as u64 == count {
        return Ok(calls);
    }
    drop(calls);
    Err(ScriptFault::Call {
        number: before + read + 1,
    })
}
