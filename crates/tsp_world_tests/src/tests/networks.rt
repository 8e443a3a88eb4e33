//! A node between two networks.

use crate::tests::lan::header_of;
use std::alloc::{AllocError, Global};
use tsp_base::header::Header;
use tsp_base::members::Members;
use tsp_base::place::{PeerId, Place, Port};
use tsp_networks::{address_of, all_nodes, networks_of, port_count};

/// Where what a node sends from a port comes to: the node and its port there.
fn address(nets: &[Members], from: u32, port: u8, to: Place) -> Option<(u32, u8)> {
    if nets.len() > 64 {
        return None;
    }
    let there = address_of(nets, from, Port(port), to)?;
    Some((there.node, there.port.0))
}

/// Whether the middle one of three nodes is on both networks, and goes over that of its port.
fn goes_over_two(nets: &[Members]) -> bool {
    let (middle, last) = (Place::Peer(PeerId(1)), Place::Peer(PeerId(2)));
    nets.len() == 2
        && port_count(nets, 0) == 1
        && port_count(nets, 1) == 2
        && address(nets, 1, 1, last) == Some((2, 0))
        && address(nets, 2, 0, middle) == Some((1, 1))
        && address(nets, 1, 0, last).is_none()
        && address(nets, 1, 2, last).is_none()
        && address(nets, 1, 1, Place::Stranger).is_none()
}

/// Whether the networks of a header of three nodes are those.
fn has_two(alloc: Global, header: &Header) -> Result<bool, AllocError> {
    if header.nodes().len() != 3 {
        return Ok(false);
    }
    let one = all_nodes(alloc, 3)?;
    Ok(goes_over_two(networks_of(header, one.as_slice())))
}

#[test]
fn goes_over_the_network_of_its_port(rt: HostRuntime) {
    let Some(header) = header_of(rt.alloc(), 0, &[], &[0, 0, 0], 1, &[&[0, 1], &[1, 2]]) else {
        panic!(rt; "no header");
    };
    assert!(rt; has_two(rt.alloc(), &header) == Ok(true));
}
