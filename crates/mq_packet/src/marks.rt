//! The flags of CONNECT (MQTT 3.1.1 section 3.1.2.3).

ghost use Rattle.std.specs.Prelude.{◌≡◌};
ghost use Rattle.mq_packet.specs.Bodies as bodies;
ghost use Rattle.mq_packet.specs.inner.Reading as spec;

use crate::packet::Qos;

/// The flags: whether the session begins empty; how often the will is to arrive, and whether it is
/// to be kept, if there is a will; whether a password follows the user, if there is a user.
#[derive(Clone, Copy)]
pub(crate) struct Marks {
    pub(crate) clean: bool,
    pub(crate) will: Option<(Qos, bool)>,
    pub(crate) login: Option<bool>,
}

/// 1 for a bit that is set.
pub(crate) fn bit(is_set: bool) -> u8
    ensures { result ≡ bodies.bit is_set }
{
    if is_set { 1 } else { 0 }
}

/// The number of a quality of service.
pub(crate) fn qos_number(qos: Qos) -> u8
    ensures { result ≡ bodies.qos_number qos }
{
    match qos {
        Qos::Zero => 0,
        Qos::One => 1,
    }
}

/// The flags in an octet, if it has good ones: those write the octet again.
pub(crate) fn read_marks(octet: u8) -> Option<Marks>
    ensures { result ≡ spec.read_marks octet }
{
    let marks = Marks {
        clean: octet / 2 % 2 == 1,
        will: will_marks(octet),
        login: login_marks(octet),
    };
    if marks_octet(marks) == octet {
        Some(marks)
    } else {
        None
    }
}

/// The flags of the will.
fn will_marks(octet: u8) -> Option<(Qos, bool)>
    ensures { result ≡ spec.will_marks_at octet }
{
    if octet / 4 % 2 != 1 {
        return None;
    }
    let qos = if octet / 8 % 2 == 1 {
        Qos::One
    } else {
        Qos::Zero
    };
    Some((qos, octet / 32 % 2 == 1))
}

/// The flags of the login.
fn login_marks(octet: u8) -> Option<bool>
    ensures { result ≡ spec.login_marks_at octet }
{
    if octet / 128 % 2 == 1 {
        Some(octet / 64 % 2 == 1)
    } else {
        None
    }
}

/// The octet of flags.
fn marks_octet(marks: Marks) -> u8
    ensures { result ≡ spec.marks_octet marks }
{
    2 * bit(marks.clean) + will_mark_bits(marks.will) + login_mark_bits(marks.login)
}

/// The bits of the will.
fn will_mark_bits(will: Option<(Qos, bool)>) -> u8
    ensures { result ≡ spec.will_mark_bits will }
{
    match will {
        None => 0,
        Some((qos, retain)) => 4 + 8 * qos_number(qos) + 32 * bit(retain),
    }
}

/// The bits of the login.
fn login_mark_bits(login: Option<bool>) -> u8
    ensures { result ≡ spec.login_mark_bits login }
{
    match login {
        None => 0,
        Some(password) => 128 + 64 * bit(password),
    }
}
