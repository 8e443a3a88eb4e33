//! The examples of the front pages of tsp_codec, tsp_group and tsp_gateway.

use std::alloc::{AllocError, Global};
use tsp_base::datagram::{Datagram, DecodeFault};
use tsp_base::desk::Desk;
use tsp_base::input::Input;
use tsp_base::kind::Kind;
use tsp_base::message::{Body, Message};
use tsp_base::name::Name;
use tsp_base::pad::Pad;
use tsp_base::place::PeerId;
use tsp_codec::{decode, encode};
use tsp_gateway::{GateConfig, Gateway};
use tsp_group::{Values, correction, largest, mean};

/// A message.
fn message() -> Datagram {
    let name = Name::new(b"alpha");
    let message = Message::new(Kind::MasterReq, 7, Body::Nothing, name);
    Datagram::Message(message)
}

/// Octets are written and read.
#[test]
fn of_the_codec(rt: HostRuntime) {
    let octets = encode(&message());
    let is_message = matches!(decode(octets.as_slice()), Ok(Datagram::Message(_)));
    assert!(rt; octets.len() == 76 && is_message);
    assert!(rt; matches!(decode(b""), Err(DecodeFault::Short)));
}

/// Four clocks' group, its mean, and a correction.
#[test]
fn of_the_averaging(rt: HostRuntime) {
    let Ok(mut values) = Values::new(rt.alloc(), 4) else {
        panic!(rt; "no memory");
    };
    values.add(0);
    values.add(400);
    values.add(900);
    values.add(70_000);
    let group = largest(&mut values, 20_000);
    let mean = mean(&group);
    assert!(rt; mean == 433 && correction(433, 900) == -467);
}

/// A node on one network boots and takes a step at the end of its quiet time. The count of its acts is
/// that of the desk.
fn boot_and_step(alloc: Global) -> Result<usize, AllocError> {
    let mut config = GateConfig::new(alloc, Name::new(b"alpha"), true, false)?;
    if config.port(PeerId(0), &[PeerId(0), PeerId(1)]).is_err() {
        return Ok(0);
    }
    let mut desk = Pad::new(alloc);
    desk.reserve(3)?;
    let Ok(mut gateway) = Gateway::boot(alloc, &config, 0, 1_000_000, 17, &mut desk) else {
        return Ok(0);
    };
    desk.clear();
    desk.reserve(gateway.room())?;
    gateway.step(80_000_000, &Input::Turn, &mut desk);
    Ok(desk.acts().len())
}

/// At the end of the quiet time come its alarm, a new role, that role's alarm and a question for a master.
#[test]
fn of_the_gateway(rt: HostRuntime) {
    assert!(rt; boot_and_step(rt.alloc()) == Ok(4));
}
