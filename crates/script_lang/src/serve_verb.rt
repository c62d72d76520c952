//! The first words of the lines of a script of jobs and clients.
ghost use Rattle.std.specs.Prelude.{◌≡◌};
ghost use Rattle.script_lang.specs.ServeVerbs.{serve_verb_of, job_verb_of};

use crate::verb::meaning_of;

/// The first word of a line.
#[derive(Clone, Copy, Debug, PartialEq, Eq)]
pub enum ServeVerb {
    End,
    Report,
    Fill,
    Job,
    Use,
    Write,
    Append,
    Read,
    Delete,
    Query,
    Cancel,
}

/// The second word of a job's line.
#[derive(Clone, Copy, Debug, PartialEq, Eq)]
pub enum JobVerb {
    Balance,
    Execute,
    DirScan,
    VolScan,
}

/// The first words, by their texts.
const SERVE_VERBS: [(&[u8], ServeVerb); 11] = [
    (b"end", ServeVerb::End),
    (b"report", ServeVerb::Report),
    (b"fill", ServeVerb::Fill),
    (b"job", ServeVerb::Job),
    (b"use", ServeVerb::Use),
    (b"write", ServeVerb::Write),
    (b"append", ServeVerb::Append),
    (b"read", ServeVerb::Read),
    (b"delete", ServeVerb::Delete),
    (b"query", ServeVerb::Query),
    (b"cancel", ServeVerb::Cancel),
];

/// The second words of jobs, by their texts.
const JOB_VERBS: [(&[u8], JobVerb); 4] = [
    (b"balance", JobVerb::Balance),
    (b"execute", JobVerb::Execute),
    (b"dirscan", JobVerb::DirScan),
    (b"volscan", JobVerb::VolScan),
];

/// The first word of a line that a word is.
#[tactic(auto, unfolding(crate::specs::ServeVerbs::serve_verb_of))]
pub fn read_serve_verb(word: &[u8]) -> Option<ServeVerb>
    ensures { result ≡ serve_verb_of word.now }
{
    meaning_of(SERVE_VERBS.as_slice(), word)
}

/// The second word of a job's line that a word is.
#[tactic(auto, unfolding(crate::specs::ServeVerbs::job_verb_of))]
pub fn read_job_verb(word: &[u8]) -> Option<JobVerb>
    ensures { result ≡ job_verb_of word.now }
{
    meaning_of(JOB_VERBS.as_slice(), word)
}
