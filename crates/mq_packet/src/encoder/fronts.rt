//! What is in a body in front of a publication's message, and bodies that have none.

ghost use Rattle.std.specs.Prelude.{◌≡◌, ◌+◌, ◌*◌, ◌<◌, ◌∷◌, ◌++◌, [], IfOk, OnOk, IfSome};
ghost use Rattle.byteorder.specs.Endian.{big_bytes};
ghost use Rattle.mq_packet.specs.Bodies as spec;
ghost use Rattle.mq_packet.specs.Bodies.{IsLogin, IsWill, data_octets, delivery_octets, login_octets, will_strings};
ghost use Rattle.mq_packet.specs.Text.{IsData, IsText};

use crate::marks::{bit, qos_number};
use crate::packet::{Delivery, Login, Qos, Will};
use byteorder::{BigEndian, ByteOrder};
use octets::append_u16;
use std::alloc::{AllocError, Global};

/// A number as two octets.
pub(super) fn octets_of(n: u16) -> [u8; 2]
    ensures { result ≡ big_bytes 2 n }
{
    let mut octets = [0; 2];
    BigEndian::write_u16(&mut octets, n);
    octets
}

/// Appends a string or data with its length in front.
fn append_data(out: &mut Vec<u8>, octets: &[u8]) -> Result<(), AllocError>
    requires { IsData octets.now }
    ensures { OnOk result (out.new.items ≡ out.old.items ++ data_octets octets.now) }
{
    append_u16(out, octets.len() as u16)?;
    out.extend_from_slice(octets)
}

/// The flags of CONNECT that are of the will.
fn will_bits(will: &Option<Will>) -> u8
    ensures value { result ≡ spec.will_bits will.now }
    ensures few { result < 45 }
{
    match will {
        None => 0,
        Some(will) => 4 + 8 * qos_number(will.qos) + 32 * bit(will.retain),
    }
}

/// The flags of CONNECT that are of the login.
fn login_bits(login: &Option<Login>) -> u8
    ensures value { result ≡ spec.login_bits login.now }
    ensures few { result < 193 }
{
    match login {
        None => 0,
        Some(login) => 128 + 64 * bit(login.password.is_some()),
    }
}

/// Appends the topic and the message of the will.
fn append_will(out: &mut Vec<u8>, will: &Option<Will>) -> Result<(), AllocError>
    requires { IfSome will.now IsWill }
    ensures { OnOk result (out.new.items ≡ out.old.items ++ will_strings will.now) }
{
    let Some(will) = will else {
        return Ok(());
    };
    append_data(out, will.topic.as_slice())?;
    append_data(out, will.message.as_slice())
}

/// Appends the user and the password.
fn append_login(out: &mut Vec<u8>, login: &Option<Login>) -> Result<(), AllocError>
    requires { IfSome login.now IsLogin }
    ensures { OnOk result (out.new.items ≡ out.old.items ++ login_octets login.now) }
{
    let Some(login) = login else {
        return Ok(());
    };
    append_data(out, login.user.as_slice())?;
    match &login.password {
        None => Ok(()),
        Some(password) => append_data(out, password.as_slice()),
    }
}

/// The body of CONNECT.
pub(super) fn connect(
    alloc: Global,
    clean: bool,
    keep_alive: u16,
    client: &[u8],
    will: &Option<Will>,
    login: &Option<Login>,
) -> Result<Vec<u8>, AllocError>
    requires client_id { IsText client.now }
    requires wills { IfSome will.now IsWill }
    requires logins { IfSome login.now IsLogin }
    ensures { IfOk result (λ front. front.items ≡ spec.protocol ++
        (2 * spec.bit clean + spec.will_bits will.now + spec.login_bits login.now)
        ∷ big_bytes 2 keep_alive ++ data_octets client.now ++ will_strings will.now
        ++ login_octets login.now) }
{
    let bits = 2 * bit(clean) + will_bits(will) + login_bits(login);
    let mut front = Vec::from_slice(alloc, &[0, 4, b'M', b'Q', b'T', b'T', 4, bits])?;
    append_u16(&mut front, keep_alive)?;
    append_data(&mut front, client)?;
    append_will(&mut front, will)?;
    append_login(&mut front, login)?;
    Ok(front)
}

/// Topic and packet id of PUBLISH.
pub(super) fn publish(
    alloc: Global,
    delivery: Delivery,
    topic: &[u8],
) -> Result<Vec<u8>, AllocError>
    requires { IsText topic.now }
    ensures { IfOk result (λ front. front.items ≡ data_octets topic.now
        ++ delivery_octets delivery) }
{
    let mut front = Vec::new(alloc);
    append_data(&mut front, topic)?;
    if let Delivery::Acknowledged { id, .. } = delivery {
        append_u16(&mut front, id)?;
    }
    Ok(front)
}

/// The body of SUBSCRIBE.
pub(super) fn subscribe(
    alloc: Global,
    id: u16,
    filter: &[u8],
    qos: Qos,
) -> Result<Vec<u8>, AllocError>
    requires { IsText filter.now }
    ensures { IfOk result (λ front. front.items ≡ big_bytes 2 id ++ data_octets filter.now
        ++ spec.qos_number qos ∷ []) }
{
    let mut front = unsubscribe(alloc, id, filter)?;
    front.push(qos_number(qos))?;
    Ok(front)
}

/// The body of UNSUBSCRIBE.
pub(super) fn unsubscribe(alloc: Global, id: u16, filter: &[u8]) -> Result<Vec<u8>, AllocError>
    requires { IsText filter.now }
    ensures { IfOk result (λ front. front.items ≡ big_bytes 2 id ++ data_octets filter.now) }
{
    let mut front = Vec::from_slice(alloc, &octets_of(id))?;
    append_data(&mut front, filter)?;
    Ok(front)
}

/// The return code of SUBACK.
fn grant_number(granted: Option<Qos>) -> u8
    ensures { result ≡ spec.grant_number granted }
{
    match granted {
        None => 0x80,
        Some(qos) => qos_number(qos),
    }
}

/// The body of SUBACK.
pub(super) fn sub_ack(id: u16, granted: Option<Qos>) -> [u8; 3]
    ensures { result ≡ big_bytes 2 id ++ spec.grant_number granted ∷ [] }
{
    let [high, low] = octets_of(id);
    [high, low, grant_number(granted)]
}
