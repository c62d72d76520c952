//! Lines as tests see them: their words again, without knowing which line it is.
use crate::{BalancerLine, ClientLine, Line, MoveLine, NodeLine, ScanLine, ServeLine};
use std::alloc::{AllocError, Global};

/// What a line says, in the order in which its words are written. A word that it hasn't is `None`.
#[derive(Clone, Copy)]
pub struct Said<'a> {
    verb: &'a str,
    name: Option<&'a str>,
    numbers: [Option<u64>; 3],
    bytes: Option<&'a [u8]>,
}

impl<'a> Said<'a> {
    // A verb alone.
    fn verb(verb: &'a str) -> Said<'a> {
        Said {
            verb,
            name: None,
            numbers: [None; 3],
            bytes: None,
        }
    }

    // A verb and a number.
    fn one(verb: &'a str, n: u64) -> Said<'a> {
        Said {
            verb,
            name: None,
            numbers: [Some(n), None, None],
            bytes: None,
        }
    }

    // A verb and two numbers.
    fn two(verb: &'a str, n: u64, m: u64) -> Said<'a> {
        Said {
            verb,
            name: None,
            numbers: [Some(n), Some(m), None],
            bytes: None,
        }
    }

    // A verb and three numbers.
    fn three(verb: &'a str, n: u64, m: u64, l: u64) -> Said<'a> {
        Said {
            verb,
            name: None,
            numbers: [Some(n), Some(m), Some(l)],
            bytes: None,
        }
    }

    // The same, and a name behind its verb.
    fn with_name(self, name: &'a str) -> Said<'a> {
        Said {
            name: Some(name),
            ..self
        }
    }

    // The same, and bytes at its end.
    fn with_bytes(self, bytes: &'a [u8]) -> Said<'a> {
        Said {
            bytes: Some(bytes),
            ..self
        }
    }

    /// The line again, its bytes as hexadecimal digits.
    pub fn printed(&self, alloc: Global) -> Result<String, AllocError> {
        let mut line = String::from_str(alloc, self.verb)?;
        if let Some(name) = self.name {
            append_word(&mut line, name)?;
        }
        for n in self.numbers {
            append_number(&mut line, n)?;
        }
        if let Some(bytes) = self.bytes {
            append_digits(alloc, &mut line, bytes)?;
        }
        Ok(line)
    }
}

// Writes a word behind a line.
fn append_word(line: &mut String, word: &str) -> Result<(), AllocError> {
    line.push(' ')?;
    line.push_str(word)
}

// Writes a number behind a line, if there is one.
fn append_number(line: &mut String, n: Option<u64>) -> Result<(), AllocError> {
    match n {
        Some(n) => write!(line, " {n}"),
        None => Ok(()),
    }
}

// Writes bytes behind a line.
fn append_digits(alloc: Global, line: &mut String, bytes: &[u8]) -> Result<(), AllocError> {
    let digits = hex::encode(alloc, bytes)?;
    append_word(line, digits.as_str())
}

// What a line about the whole node or the plan says.
fn said_of_node(line: &Line) -> Said<'_> {
    match line {
        Line::Blank => Said::verb("blank"),
        Line::Node(NodeLine::At { ms }) => Said::one("at", *ms),
        Line::Node(NodeLine::Use { pool }) => Said::verb("use").with_name(pool.as_str()),
        Line::Node(NodeLine::Reopen) => Said::verb("reopen"),
        Line::Node(NodeLine::Report) => Said::verb("report"),
        Line::Node(NodeLine::Fill { count, seed }) => Said::two("fill", *count, *seed),
        Line::Balancer(BalancerLine::Balance { t }) => Said::one("balance", u64::from(*t)),
        Line::Balancer(
            BalancerLine::Execute {
                id,
                version,
                force,
                json,
            },
        ) => Said::two("execute", *version, u64::from(*force))
            .with_name(id.as_str())
            .with_bytes(json.as_slice()),
        Line::Balancer(BalancerLine::Query) => Said::verb("query"),
        Line::Balancer(BalancerLine::Cancel { id }) => Said::verb("cancel").with_name(id.as_str()),
        Line::Balancer(BalancerLine::Mover) => Said::verb("mover"),
        _ => Said::verb("another"),
    }
}

// What a line of a client says.
fn said_of_client(line: &Line) -> Said<'_> {
    match line {
        Line::Client(ClientLine::Open { id, stamp, need }) => Said::three(
            "open",
            id.get(),
            stamp.get(),
            *need,
        ),
        Line::Client(ClientLine::Grow { id, stamp, more }) => Said::three(
            "grow",
            id.get(),
            stamp.get(),
            *more,
        ),
        Line::Client(ClientLine::Push { id, hex }) => Said::one("push", id.get()).with_bytes(
            hex.as_slice(),
        ),
        Line::Client(ClientLine::Finish { id }) => Said::one("finish", id.get()),
        Line::Client(ClientLine::Drop { id }) => Said::one("drop", id.get()),
        Line::Client(ClientLine::Write { id, stamp, hex }) => {
            Said::two("write", id.get(), stamp.get()).with_bytes(hex.as_slice())
        }
        Line::Client(ClientLine::Append { id, stamp, hex }) => {
            Said::two("append", id.get(), stamp.get()).with_bytes(hex.as_slice())
        }
        Line::Client(ClientLine::Read { id }) => Said::one("read", id.get()),
        Line::Client(ClientLine::Delete { id }) => Said::one("delete", id.get()),
        _ => said_of_node(line),
    }
}

// What a line about scanners says.
fn said_of_scan(line: &Line) -> Said<'_> {
    match line {
        Line::Scan(ScanLine::DirList { vol, d1, d2 }) => {
            Said::three("dirlist", u64::from(*vol), u64::from(*d1), u64::from(*d2))
        }
        Line::Scan(ScanLine::DirDiff) => Said::verb("dirdiff"),
        Line::Scan(ScanLine::DirFix) => Said::verb("dirfix"),
        Line::Scan(ScanLine::VolLoad { vol }) => Said::one("volload", u64::from(*vol)),
        Line::Scan(ScanLine::VolNext { vol }) => Said::one("volnext", u64::from(*vol)),
        Line::Scan(ScanLine::VolCheck { vol }) => Said::one("volcheck", u64::from(*vol)),
        Line::Scan(ScanLine::VolReport { vol }) => Said::one("volreport", u64::from(*vol)),
        Line::Scan(ScanLine::Cursor { vol }) => Said::one("cursor", u64::from(*vol)),
        _ => said_of_client(line),
    }
}

/// What a line says.
pub fn said_by(line: &Line) -> Said<'_> {
    match line {
        Line::Move(MoveLine::Begin { id, vol }) => Said::two("mbegin", id.get(), u64::from(*vol)),
        Line::Move(MoveLine::Copy { id, n }) => Said::two("mcopy", id.get(), *n),
        Line::Move(MoveLine::Seal { id }) => Said::one("mseal", id.get()),
        Line::Move(MoveLine::Publish { id }) => Said::one("mpublish", id.get()),
        Line::Move(MoveLine::Drop { id }) => Said::one("mdrop", id.get()),
        Line::Move(MoveLine::Sweep) => Said::verb("sweep"),
        _ => said_of_scan(line),
    }
}

/// What a line of a script of jobs and clients says.
pub fn said_by_serve_line(line: &ServeLine) -> Said<'_> {
    match line {
        ServeLine::Blank => Said::verb("blank"),
        ServeLine::End => Said::verb("end"),
        ServeLine::Report => Said::verb("report"),
        ServeLine::Fill { count, seed } => Said::two("fill", *count, *seed),
        ServeLine::Balance { t } => Said::one("job balance", u64::from(*t)),
        ServeLine::Execute {
            id,
            version,
            force,
            json,
        } => Said::two("job execute", *version, u64::from(*force))
            .with_name(id.as_str())
            .with_bytes(json.as_slice()),
        ServeLine::DirScan => Said::verb("job dirscan"),
        ServeLine::VolScan { vol } => Said::one("job volscan", u64::from(*vol)),
        ServeLine::Client(line) => said_by(line),
    }
}
