//! The date of the machine, by which the gateway's moments go.
//!
//! Messages have moments from which on they need not wait, and other gateways judge them: so
//! moments are dates. They are taken from the date when the program starts. From then on they go by
//! a clock that nobody sets. If the date is found far from them after a shift, the gateway is
//! opened anew by it: its timers are of the moments before.

ghost use Rattle.std.specs.Prelude.{◌≡◌, if◌then◌else◌};
ghost use Rattle.gw_wire.specs.Clock as clocks;

use crate::board::Number;
use crate::held_over::Inlet;
use crate::program::{Gateway, Program};
use crate::running::tell;
use crate::stop::Stop;
use gw_main::begin_fault_number;
use gw_main::options::Settings;
use gw_wire::{FieldClock, date, is_astray, is_date};
use std::alloc::Global;
use std::io::Write;
use std::sync::Wait;

/// What is said if messages get no lifetime, since the machine has no date.
const UNDATED: &str = "date: before 2026: messages get no lifetime until it is set";

/// The lifetime of messages at this date, in seconds: none before the date was set.
fn lifetime_at(lifetime: u32, date: u64) -> u32
    ensures { result ≡ (if clocks.is_date date then lifetime else 0) }
{
    if is_date(date) { lifetime } else { 0 }
}

/// Takes the lifetime out of settings if the machine has no date, and says so. Gives the lifetime
/// that they had.
pub(crate) fn hold_lifetime<E: Write>(settings: &mut Settings, today: u64, err: &mut E) -> u32 {
    let lifetime = settings.lifetime;
    settings.lifetime = lifetime_at(lifetime, today);
    if settings.lifetime != lifetime {
        let _ = writeln!(err, "{UNDATED}");
    }
    lifetime
}

/// Moments go by the date from now on. No other thread looks at the clock meanwhile: it is looked
/// at here, so that the next look takes nothing that passed before for a standing still since then.
/// If the machine had no date when the gateway was opened, or has none now, moments go by that of
/// the opening: so the gateway is opened again once one is set.
pub(crate) fn begin_dates(rt: &HostRuntime, clock: &FieldClock, opened: u64) {
    let today = date(rt);
    let are_dates = is_date(opened) && is_date(today);
    let _ = clock.look(rt);
    clock.set(if are_dates { today } else { opened });
}

/// A gateway after a shift. If the date is far from the moment, or was set, it is opened anew by
/// the date, with the lifetime of the settings, and the links are closed. Runs in the thread of
/// shifts. A date that was set may be near the moment of a gateway that stood still; if that were
/// let be, each shift would close for it. A datagram that came late comes by the date as well.
/// While the gateway is halted it is let be: its disk may fail. So it is if the date cannot be
/// read, and is 0. The moment is that of the last look in the shift: whoever looks next finds
/// whether the gateway stood still since then.
pub(crate) fn by_date<T: Wait>(
    program: &Program<'_, T>,
    node: Gateway,
    inlet: &mut Inlet,
) -> Result<Gateway, Stop> {
    let rt = program.rt;
    let host = program.host;
    let pool = &program.shared.pool;
    let today = date(host);
    let moment = pool.clock.moment();
    let is_far = is_astray(moment, today) || pool.clock.has_leapt(host);
    if node.is_halted() || today == 0 || !is_far {
        return Ok(node);
    }
    say_date(program, moment, today);
    let lasts = lifetime_at(program.settings.lifetime, today);
    let opened = opened_with(program.alloc, node, lasts)?;
    begin_dates(host, &pool.clock, today);
    program.shared.board.add(Number::ReopenedBetween);
    pool.close_all(rt);
    inlet.late.come_at(pool.clock.moment());
    tell(program, &opened);
    Ok(opened)
}

/// Says how far the date is from the moment, and that messages get no lifetime if they get none at
/// that date.
fn say_date<T: Wait>(program: &Program<'_, T>, moment: u64, today: u64) {
    let err = program.said.err;
    let lifetime = program.settings.lifetime;
    err.say(program.rt, line_of(program.alloc, moment, today));
    if lifetime_at(lifetime, today) != lifetime {
        err.say(program.rt, String::from_str(program.alloc, UNDATED).ok());
    }
}

/// The line that says how far the date is from the moment. `None` if memory runs out.
fn line_of(alloc: Global, moment: u64, today: u64) -> Option<String> {
    let (way, apart) = if today > moment {
        ("later", today.saturating_sub(moment))
    } else {
        ("earlier", moment.saturating_sub(today))
    };
    format!(in alloc; "date: {apart} seconds {way} than the gateway's: it is opened again").ok()
}

/// A gateway that is opened anew, with this lifetime.
fn opened_with(alloc: Global, node: Gateway, lifetime: u32) -> Result<Gateway, Stop> {
    let (mut config, disk) = node.into_parts();
    config.lifetime = lifetime;
    match Gateway::open(alloc, config, disk) {
        Ok(opened) => Ok(opened),
        Err((disk, fault)) => {
            drop(disk);
            let number = begin_fault_number(&fault);
            drop(fault);
            Err(Stop::Reopening(number))
        }
    }
}
