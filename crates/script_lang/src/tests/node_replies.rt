//! Replies about the node, as they are printed.
ghost use Rattle.std.specs.Prelude.{◌≡◌};

use super::printing::is_printed;
use crate::listed::Listed;
use crate::reply::Reply;
use crate::reply::node_reply::NodeReply;
use crate::reply::report::VolumeRow;
use std::alloc::{AllocError, Global};
use std::process::Abort;
use std::test::Fail;

// A report of volumes, of which each is used as far as is said.
fn report(alloc: Global, used: &[u64]) -> Result<NodeReply, AllocError> {
    let mut rows = Vec::new(alloc);
    let mut i = 0_u8;
    for used in used {
        i = i.saturating_add(1);
        rows.push(VolumeRow {
            i: i.into(),
            capacity: 1000,
            used: *used,
            replicas: *used,
        })?;
    }
    Ok(NodeReply::Report {
        volumes: 2,
        leftovers: 0,
        rows: Listed::new(rows),
    })
}

// A reply of one line, and its text.
fn word(n: usize) -> (NodeReply, &'static str) {
    match n {
        0 => (NodeReply::NoPool, "nopool\n"),
        1 => (NodeReply::NoVolume, "novolume\n"),
        _ => (NodeReply::Filled { ok: 600 }, "filled 600\n"),
    }
}

const REPORT: &str = "\
    report 2 0\n\
    volume 1 1000 1 1\n\
    volume 2 1000 0 0\n";

// Whether a report is printed as it should be.
fn is_report_printed(alloc: Global) -> bool {
    match report(alloc, &[1, 0]) {
        Ok(reply) => is_printed(alloc, Reply::Node(reply), REPORT),
        Err(_) => false,
    }
}

// Whether a reply is printed as it should be.
fn is_row_printed(alloc: Global, n: usize) -> bool {
    if n == 3 {
        return is_report_printed(alloc);
    }
    let (reply, want) = word(n);
    is_printed(alloc, Reply::Node(reply), want)
}

#[test]
fn replies_about_the_node(rt: HostRuntime) {
    let alloc = rt.alloc();
    for n in 0..4 {
        assert!(rt; is_row_printed(alloc, n), "at {n}");
    }
}
