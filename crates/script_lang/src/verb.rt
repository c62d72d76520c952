//! The first words of the lines of a script.
ghost use Rattle.std.specs.Prelude.{◌≡◌, map};
ghost use Rattle.script_lang.specs.Table.{meaning_of};
ghost use Rattle.script_lang.specs.Verbs.{verb_of};

/// The first word of a line, by what the line is about.
#[derive(Clone, Copy, Debug, PartialEq, Eq)]
pub enum Verb {
    Node(NodeVerb),
    Client(ClientVerb),
    Move(MoveVerb),
    Balancer(BalancerVerb),
    Scan(ScanVerb),
}

/// Of lines about the whole node.
#[derive(Clone, Copy, Debug, PartialEq, Eq)]
pub enum NodeVerb {
    At,
    Use,
    Reopen,
    Report,
    Fill,
}

/// Of a client's lines about a block.
#[derive(Clone, Copy, Debug, PartialEq, Eq)]
pub enum ClientVerb {
    Open,
    Grow,
    Push,
    Finish,
    Drop,
    Write,
    Append,
    Read,
    Delete,
}

/// Of lines about the move of a replica from one volume to another.
#[derive(Clone, Copy, Debug, PartialEq, Eq)]
pub enum MoveVerb {
    Begin,
    Copy,
    Seal,
    Publish,
    Drop,
    Sweep,
}

/// Of lines about the disk balancer's plan.
#[derive(Clone, Copy, Debug, PartialEq, Eq)]
pub enum BalancerVerb {
    Balance,
    Execute,
    Query,
    Cancel,
    Mover,
}

/// Of lines about the directory scanner and the volume scanner.
#[derive(Clone, Copy, Debug, PartialEq, Eq)]
pub enum ScanVerb {
    DirList,
    DirDiff,
    DirFix,
    VolLoad,
    VolNext,
    VolCheck,
    VolReport,
    Cursor,
}

/// All of them, by their texts.
const VERBS: [(&[u8], Verb); 33] = [
    (b"at", Verb::Node(NodeVerb::At)),
    (b"use", Verb::Node(NodeVerb::Use)),
    (b"reopen", Verb::Node(NodeVerb::Reopen)),
    (b"report", Verb::Node(NodeVerb::Report)),
    (b"fill", Verb::Node(NodeVerb::Fill)),
    (b"open", Verb::Client(ClientVerb::Open)),
    (b"grow", Verb::Client(ClientVerb::Grow)),
    (b"push", Verb::Client(ClientVerb::Push)),
    (b"finish", Verb::Client(ClientVerb::Finish)),
    (b"drop", Verb::Client(ClientVerb::Drop)),
    (b"write", Verb::Client(ClientVerb::Write)),
    (b"append", Verb::Client(ClientVerb::Append)),
    (b"read", Verb::Client(ClientVerb::Read)),
    (b"delete", Verb::Client(ClientVerb::Delete)),
    (b"mbegin", Verb::Move(MoveVerb::Begin)),
    (b"mcopy", Verb::Move(MoveVerb::Copy)),
    (b"mseal", Verb::Move(MoveVerb::Seal)),
    (b"mpublish", Verb::Move(MoveVerb::Publish)),
    (b"mdrop", Verb::Move(MoveVerb::Drop)),
    (b"sweep", Verb::Move(MoveVerb::Sweep)),
    (b"balance", Verb::Balancer(BalancerVerb::Balance)),
    (b"execute", Verb::Balancer(BalancerVerb::Execute)),
    (b"query", Verb::Balancer(BalancerVerb::Query)),
    (b"cancel", Verb::Balancer(BalancerVerb::Cancel)),
    (b"mover", Verb::Balancer(BalancerVerb::Mover)),
    (b"dirlist", Verb::Scan(ScanVerb::DirList)),
    (b"dirdiff", Verb::Scan(ScanVerb::DirDiff)),
    (b"dirfix", Verb::Scan(ScanVerb::DirFix)),
    (b"volload", Verb::Scan(ScanVerb::VolLoad)),
    (b"volnext", Verb::Scan(ScanVerb::VolNext)),
    (b"volcheck", Verb::Scan(ScanVerb::VolCheck)),
    (b"volreport", Verb::Scan(ScanVerb::VolReport)),
    (b"cursor", Verb::Scan(ScanVerb::Cursor)),
];

/// What a word of a table stands for.
pub fn meaning_of<T: Copy>(table: &[(&[u8], T)], word: &[u8]) -> Option<T>
    ensures { result ≡ meaning_of (map (λ row. (row.0.now, row.1)) table.now) word.now }
{
    for row in table {
        if word == row.0 {
            return Some(row.1);
        }
    }
    None
}

/// The first word of a line that a word is.
#[tactic(auto, unfolding(crate::specs::Verbs::verb_of))]
pub fn read_verb(word: &[u8]) -> Option<Verb>
    ensures { result ≡ verb_of word.now }
{
    meaning_of(VERBS.as_slice(), word)
}
