//! The lines and the posted datagrams of an event's acts.
ghost use Rattle.std.specs.Prelude.{◌≡◌, ◌≤◌, ◌<◌, ◌+◌, ◌++◌, length, map};
ghost use Rattle.tsp_run.specs.Run.{told_from, posts_by, number_of, posts_from, posted_by};
ghost use Rattle.tsp_networks.specs.Sheets.{placed_in};

use crate::posts::Posts;
use crate::way::Way;
use tsp_base::act::{Act, Placed};
use tsp_run::line::Line;

/// Completes the lines of an event's acts, and adds the datagrams that they post, with the next numbers.
pub fn tell(lines: &mut [Line], sent: &mut Posts, event: u64, at: u64, node: u32, tick: u64)
    requires room { length lines.old ≤ sent.old.spare }
    ensures lines { lines.new ≡ told_from event node tick (length sent.old.items)
        (map placed_in lines.old) }
    ensures sent { sent.new.items ≡ sent.old.items
        ++ posts_from at node (map placed_in lines.old) }
    ensures len { length sent.new.items ≤ length sent.old.items + length lines.old }
{
    for line in lines.iter_mut() {
        line.event = event;
        line.node = node;
        line.tick = tick;
        line.number = send(sent, &line.placed, at, node);
    }
}

/// Adds the datagram that an act posts, and gives its number; None where the act is no post.
fn send(sent: &mut Posts, placed: &Placed, at: u64, node: u32) -> Option<u64>
    requires room { 0 < sent.old.spare }
    ensures number { result ≡ number_of placed.now.act (length sent.old.items) }
    ensures sent { sent.new.items ≡ sent.old.items
        ++ posted_by at node placed.now.port placed.now.act }
    ensures len { length sent.new.items ≡ length sent.old.items + posts_by placed.now.act }
    ensures few { length sent.new.items ≤ length sent.old.items + 1 }
    ensures spare { sent.old.spare ≤ sent.new.spare + 1 }
{
    match &placed.act {
        Act::Post(to, datagram) => {
            let number = sent.len() as u64;
            let way = Way {
                at,
                from: node,
                port: placed.port,
                to: *to,
            };
            sent.push(way, datagram);
            Some(number)
        }
        _ => None,
    }
}
